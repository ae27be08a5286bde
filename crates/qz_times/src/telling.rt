//! What is said to what a line asks for.
ghost use Rattle.std.specs.Prelude.{◌≡◌, negsuc, ◌≤ℤ◌, Some, None, IsTrue, IfOk, option_copied};
ghost use Rattle.qz_civil.specs.Least.{IsNext};
ghost use Rattle.qz_types.specs.Rows.{is_trigger_spec};
ghost use Rattle.qz_civil.specs.declared.limits.TheConstants.{LAST};
ghost use Rattle.qz_model.specs.Plan.{is_utc, is_known_zone, is_known_zone_name, is_known_calendar, zone_named_by};
ghost use Rattle.qz_job_json.specs.Asked.{is_asked};
ghost use Rattle.qz_steps.specs.declared.steps.StepReply.TheVariants as reply;
ghost use Rattle.qz_report.specs.Replies.{reply_text};
ghost use Rattle.qz_times.specs.Known.{kept};
ghost use Rattle.qz_times.specs.Said.{AreFirst, Fires, IsTold, IsToldUnless, Said, trigger_refusal};

use crate::known::Known;
use crate::obeying::obey;
use crate::queries::Query;
use crate::reply_lines::line_of;
use qz_apply::{next_after, same_text};
use qz_civil::{Kind, LAST, NoMemory, Text};
use qz_job_json::Asked;
use qz_report::times_line;
use qz_steps::StepReply;
use qz_tables::Tables;
use qz_types::{Command, Refusal, TriggerSpec};
use std::alloc::Global;

/// Says what a line asks for. Where there is no memory, what is known is not to be used further.
#[tactic(auto, unfolding(qz_types::specs::Entries::is_entry), using(crate::proofs::NextLaws::zone_keeps, crate::proofs::NextLaws::calendar_keeps))]
pub(crate) fn say(
    alloc: Global,
    asked: Asked,
    known: &mut Known,
    query: Query,
) -> Result<Text, NoMemory>
    requires asked { IsTrue (is_asked asked) }
    requires low { negsuc 0 ≤ℤ query.after }
    requires high { query.after ≤ℤ LAST }
    ensures { IfOk result (λ text. Said query (kept known.old) (Some asked) text (kept known.new)) }
{
    match asked {
        Asked::AddZone { zone } => obey(alloc, known, Command::AddZone { zone }),
        Asked::AddCalendar { calendar, replace } => {
            obey(alloc, known, Command::AddCalendar { calendar, replace })
        }
        Asked::AddTrigger { spec } => tell(alloc, known, &spec, query),
    }
}

// The line of a trigger.
fn tell(alloc: Global, known: &Known, spec: &TriggerSpec, query: Query) -> Result<Text, NoMemory>
    requires spec { IsTrue (is_trigger_spec spec.now) }
    requires low { negsuc 0 ≤ℤ query.after }
    requires high { query.after ≤ℤ LAST }
    ensures { IfOk result (IsTold (kept known.now) query spec.now) }
{
    match trigger_refusal(known.store.tables(), spec) {
        Some(refusal) => refused(alloc, refusal),
        None => tell_times(alloc, known, spec, query),
    }
}

fn refused(alloc: Global, refusal: Refusal) -> Result<Text, NoMemory>
    ensures { IfOk result (λ text. text ≡ reply_text (reply.Refused refusal)) }
{
    line_of(alloc, StepReply::Refused(refusal))
}

// Why a trigger isn't told its times.
fn trigger_refusal(tables: &Tables, spec: &TriggerSpec) -> Option<Refusal>
    ensures { result ≡ trigger_refusal tables.now.tables spec.now }
{
    if !is_known_calendar(tables, spec.calendar.as_ref()) {
        Some(Refusal::UnknownCalendar)
    } else if !has_known_zone(tables, &spec.timing.kind) {
        Some(Refusal::UnknownZone)
    } else {
        None
    }
}

fn is_known_calendar(tables: &Tables, name: Option<&Text>) -> bool
    ensures { result ≡ is_known_calendar tables.now.tables.calendars (option_copied name.entry) }
{
    match name {
        None => true,
        Some(name) => tables.get_calendar(name).is_some(),
    }
}

#[tactic(auto, unfolding(qz_model::specs::Plan::is_known_zone, qz_model::specs::Plan::is_utc))]
fn is_known_zone(tables: &Tables, name: &Text) -> bool
    ensures { result ≡ is_known_zone tables.now.tables.zones name.now }
{
    same_text(name.as_str(), "UTC") || tables.get_zone(name).is_some()
}

// Whether the zone is known in which the kind reads local times, if it reads any.
fn has_known_zone(tables: &Tables, kind: &Kind) -> bool
    ensures { result ≡ is_known_zone_name tables.now.tables.zones (zone_named_by kind.now) }
{
    match kind {
        Kind::Simple { .. } => true,
        Kind::Cron { zone, .. } => is_known_zone(tables, zone),
        Kind::Interval { zone, .. } => is_known_zone(tables, zone),
        Kind::Daily { zone, .. } => is_known_zone(tables, zone),
    }
}

// The times of a trigger that isn't refused.
fn tell_times(
    alloc: Global,
    known: &Known,
    spec: &TriggerSpec,
    query: Query,
) -> Result<Text, NoMemory>
    requires spec { IsTrue (is_trigger_spec spec.now) }
    requires low { negsuc 0 ≤ℤ query.after }
    requires high { query.after ≤ℤ LAST }
    ensures { IfOk result (IsToldUnless None (kept known.now) query spec.now) }
{
    let times = first_times(alloc, known, spec, query)?;
    times_line(alloc, &spec.key, &times)
}

// The first fire times of a trigger.
fn first_times(
    alloc: Global,
    known: &Known,
    spec: &TriggerSpec,
    query: Query,
) -> Result<Vec<i64>, NoMemory>
    requires spec { IsTrue (is_trigger_spec spec.now) }
    requires low { negsuc 0 ≤ℤ query.after }
    requires high { query.after ≤ℤ LAST }
    ensures { IfOk result (λ times. AreFirst (Fires (kept known.now) spec.now) query.after query.count times.items) }
{
    let mut times = Vec::new(alloc);
    let mut last = query.after;
    for _place in 0..query.count {
        let Some(next) = next_time(known, spec, last) else {
            return Ok(times);
        };
        times.push(next)?;
        last = next;
    }
    Ok(times)
}

// The least fire time after `after`, which is a timestamp or -1.
fn next_time(known: &Known, spec: &TriggerSpec, after: i64) -> Option<i64>
    requires spec { IsTrue (is_trigger_spec spec.now) }
    requires low { negsuc 0 ≤ℤ after }
    requires high { after ≤ℤ LAST }
    ensures { IsNext LAST (Fires (kept known.now) spec.now) after result }
{
    next_after(known.store.tables(), spec, after)
}
