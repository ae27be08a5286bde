//! The fire times of stored triggers, and what a misfire makes of them.
ghost use Rattle.std.specs.Prelude.{◌≡◌, ◌≤◌, ◌+◌, ◌++◌, length, map, pos, negsuc, ◌≤ℤ◌, ◌<ℤ◌, option_copied, option_map, IsTrue, IfSome};
ghost use Rattle.qz_civil.specs.Timings.{is_timing};
ghost use Rattle.qz_civil.specs.Zones.{fixed_offset};
ghost use Rattle.qz_types.specs.Chains.{calendar_named, chain_of};
ghost use Rattle.qz_types.specs.Changes.{moved_timing};
ghost use Rattle.qz_types.specs.Rows.{is_trigger_spec};
ghost use Rattle.qz_model.specs.Acquiring.{next_time};
ghost use Rattle.qz_model.specs.Misfires.{move_of};
ghost use Rattle.qz_model.specs.Plan.{is_utc, next_after, stretches_for, stretches_named, zone_named_by, zoned, zoned_chain};

use crate::horizons::{UpTo, within};
use crate::same_text;
use qz_calendar::{CHAIN_LIMIT, Chain};
use qz_civil::{Kind, LAST, Moved, Zone};
use qz_misfire::after_misfire;
use qz_plan::FireTimes;
use qz_tables::Tables;
use qz_types::{CalendarRow, TIMES_LIMIT, Text, TriggerRow, TriggerSpec};

#[tactic(auto, unfolding(qz_model::specs::Plan::is_utc))]
fn is_utc(name: &Text) -> bool
    ensures { result ≡ is_utc name.now }
{
    same_text(name.as_str(), "UTC")
}

// The zone of this name. `UTC` is the caller's, and stands for a zone that isn't stored.
#[tactic(auto, unfolding(qz_model::specs::Plan::stretches_named))]
fn zone_named<'a>(tables: &'a Tables, utc: &'a Zone, name: &Text) -> &'a Zone
    requires { utc.now ≡ fixed_offset (pos 0) }
    ensures { result.now ≡ stretches_named tables.now.tables.zones name.now }
{
    if is_utc(name) {
        return utc;
    }
    match tables.get_zone(name) {
        Some(row) => &row.zone,
        None => utc,
    }
}

// The zone that the kind names, and `UTC` where it names none.
fn zone_for<'a>(tables: &'a Tables, utc: &'a Zone, kind: &Kind) -> &'a Zone
    requires { utc.now ≡ fixed_offset (pos 0) }
    ensures { result.now ≡ stretches_for tables.now.tables.zones (zone_named_by kind.now) }
{
    match kind {
        Kind::Simple {
            interval: _,
            count: _,
        } => utc,
        Kind::Cron { fields: _, zone } => zone_named(tables, utc, zone),
        Kind::Interval {
            unit: _,
            every: _,
            zone,
            preserve: _,
            skip: _,
        } => zone_named(tables, utc, zone),
        Kind::Daily {
            unit: _,
            every: _,
            from: _,
            to: _,
            days: _,
            zone,
        } => zone_named(tables, utc, zone),
    }
}

// The calendar of a name, if a name is given and a calendar of it is stored.
fn calendar_named<'a>(tables: &'a Tables, name: Option<&Text>) -> Option<&'a CalendarRow>
    ensures { option_copied result ≡ calendar_named tables.now.tables.calendars (option_copied name.entry) }
{
    tables.get_calendar(name?)
}

// Puts the calendar with its zone, that below it and so on, up to so many, after those of the chain.
fn push_to<'a>(
    tables: &'a Tables,
    utc: &'a Zone,
    calendar: Option<&'a CalendarRow>,
    limit: usize,
    chain: &mut Chain<'a>,
)
    requires utc { utc.now ≡ fixed_offset (pos 0) }
    requires room { length chain.old + limit ≤ CHAIN_LIMIT }
    ensures { chain.new ≡ chain.old ++ map (zoned tables.now.tables.zones) (chain_of tables.now.tables.calendars limit (option_copied calendar.entry)) }
{
    let Some(calendar) = calendar else {
        return;
    };
    if limit == 0 {
        return;
    }
    let zone = zone_named(tables, utc, &calendar.zone);
    match chain.push(&calendar.kind, zone) {
        Ok(()) => {}
        Err(_) => unreachable!(),
    }
    let base = calendar_named(tables, calendar.base.as_ref());
    push_to(tables, utc, base, limit - 1, chain);
}

// The chain of a trigger that names this calendar.
#[tactic(auto, unfolding(qz_model::specs::Plan::zoned_chain))]
fn zoned_chain<'a>(tables: &'a Tables, utc: &'a Zone, calendar: Option<&Text>) -> Chain<'a>
    requires { utc.now ≡ fixed_offset (pos 0) }
    ensures { result ≡ zoned_chain tables.now.tables (option_copied calendar.entry) }
{
    let mut chain = Chain::empty();
    let first = calendar_named(tables, calendar);
    push_to(tables, utc, first, CHAIN_LIMIT, &mut chain);
    chain
}

/// The trigger's least fire time after `t`, which is a timestamp or -1, in its zone and with its calendars. Both are in ms
/// since 1970-01-01T00:00:00Z, and the answer is `None` where there is none up to the horizon of the tables.
#[tactic(auto, unfolding(qz_model::specs::Plan::next_after))]
pub fn next_after(tables: &Tables, spec: &TriggerSpec, t: i64) -> Option<i64>
    requires spec { IsTrue (is_trigger_spec spec.now) }
    requires low { negsuc 0 ≤ℤ t }
    requires high { t ≤ℤ LAST }
    ensures value { result ≡ next_after tables.now.tables spec.now t }
    ensures within { IfSome result (λ s. (t <ℤ s) × (s ≤ℤ LAST)) }
{
    let utc = Zone::utc();
    let zone = zone_for(tables, &utc, &spec.timing.kind);
    let chain = zoned_chain(tables, &utc, spec.calendar.as_ref());
    let next = qz_plan::after(&spec.timing, zone, &chain, t);
    within(tables.horizon(), next)
}

/// What the misfire table makes of a trigger whose next time lies before this moment, in ms since 1970-01-01T00:00:00Z. Its
/// later fire times are those up to the horizon of the tables. The trigger that is moved so is valid again. Whether it is
/// misfired, by the threshold, is for the caller to say.
#[tactic(auto, unfolding(qz_model::specs::Misfires::move_of, qz_model::specs::Plan::next_after, qz_model::specs::Acquiring::next_time))]
pub fn move_of(tables: &Tables, trigger: &TriggerRow, moment: i64) -> Moved
    requires next { pos 0 ≤ℤ next_time trigger.now }
    requires missed { next_time trigger.now <ℤ moment }
    requires moment { moment ≤ℤ LAST }
    ensures value { result ≡ move_of tables.now.tables moment trigger.now }
    ensures timing { IsTrue (is_timing (moved_timing result trigger.now.spec.timing)) }
    ensures times { result.times ≤ TIMES_LIMIT }
    ensures next { IfSome result.next (λ t. (pos 0 ≤ℤ t) × (t ≤ℤ LAST)) }
{
    let timing = &trigger.spec.timing;
    let utc = Zone::utc();
    let zone = zone_for(tables, &utc, &timing.kind);
    let chain = zoned_chain(tables, &utc, trigger.spec.calendar.as_ref());
    let next = trigger.next.unwrap_or(0);
    let later = UpTo {
        times: FireTimes::new(timing, zone, &chain),
        horizon: tables.horizon(),
    };
    after_misfire(timing, &later, next, trigger.times, moment)
}
