//! How many triggers and calendars name a zone or a calendar. Each count looks at every row of its kind.
ghost use Rattle.std.specs.Prelude.{◌≡◌, count_by, option_copied};
ghost use Rattle.qz_types.specs.Words.{same_text};
ghost use Rattle.qz_model.specs.Calendars.{is_named, use_refusal};
ghost use Rattle.qz_model.specs.Plan.{zone_named_by};

use qz_apply::same_text;
use qz_tables::Tables;
use qz_types::{CalendarRow, Kind, Refusal, Text, TriggerRow};

/// Why what has so many uses isn't deleted, if it isn't.
pub fn use_refusal(uses: u64) -> Option<Refusal>
    ensures { result ≡ use_refusal uses }
{
    if uses > 0 {
        Some(Refusal::InUse { by: uses })
    } else {
        None
    }
}

/// How many triggers name the zone.
pub fn triggers_in_zone(tables: &Tables, name: &Text) -> u64
    ensures { result ≡ count_by (λ t. is_named name.now (zone_named_by t.spec.timing.kind)) tables.now.tables.triggers }
{
    let mut count = 0;
    for place in 0..tables.len_triggers() {
        let Some(trigger) = tables.nth_trigger(place) else {
            unreachable!()
        };
        if reads_zone(trigger, name) {
            count += 1;
        }
    }
    count
}

/// How many calendars name the zone.
pub fn calendars_in_zone(tables: &Tables, name: &Text) -> u64
    ensures { result ≡ count_by (λ c. same_text name.now c.zone) tables.now.tables.calendars }
{
    let mut count = 0;
    for place in 0..tables.len_calendars() {
        let Some(calendar) = tables.nth_calendar(place) else {
            unreachable!()
        };
        if is_read_in(calendar, name) {
            count += 1;
        }
    }
    count
}

/// How many triggers name the calendar.
pub fn triggers_with_calendar(tables: &Tables, name: &Text) -> u64
    ensures { result ≡ count_by (λ t. is_named name.now t.spec.calendar) tables.now.tables.triggers }
{
    let mut count = 0;
    for place in 0..tables.len_triggers() {
        let Some(trigger) = tables.nth_trigger(place) else {
            unreachable!()
        };
        if has_calendar(trigger, name) {
            count += 1;
        }
    }
    count
}

/// How many calendars have the calendar for their base.
pub fn calendars_above(tables: &Tables, name: &Text) -> u64
    ensures { result ≡ count_by (λ c. is_named name.now c.base) tables.now.tables.calendars }
{
    let mut count = 0;
    for place in 0..tables.len_calendars() {
        let Some(calendar) = tables.nth_calendar(place) else {
            unreachable!()
        };
        if has_base(calendar, name) {
            count += 1;
        }
    }
    count
}

fn is_named(name: &Text, named: &Option<Text>) -> bool
    ensures { result ≡ is_named name.now named.now }
{
    match named {
        Some(other) => same_text(name.as_str(), other.as_str()),
        None => false,
    }
}

fn has_calendar(trigger: &TriggerRow, name: &Text) -> bool
    ensures { result ≡ is_named name.now trigger.now.spec.calendar }
{
    is_named(name, &trigger.spec.calendar)
}

fn has_base(calendar: &CalendarRow, name: &Text) -> bool
    ensures { result ≡ is_named name.now calendar.now.base }
{
    is_named(name, &calendar.base)
}

fn is_read_in(calendar: &CalendarRow, zone: &Text) -> bool
    ensures { result ≡ same_text zone.now calendar.now.zone }
{
    same_text(zone.as_str(), calendar.zone.as_str())
}

fn reads_zone(trigger: &TriggerRow, name: &Text) -> bool
    ensures { result ≡ is_named name.now (zone_named_by trigger.now.spec.timing.kind) }
{
    match &trigger.spec.timing.kind {
        Kind::Simple { .. } => false,
        Kind::Cron { zone, .. } | Kind::Interval { zone, .. } | Kind::Daily { zone, .. } => {
            same_text(name.as_str(), zone.as_str())
        }
    }
}
