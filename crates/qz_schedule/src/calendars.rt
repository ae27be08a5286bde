//! Storing a calendar, and deleting one that nothing names.
ghost use Rattle.std.specs.Prelude.{◌≡◌, ◌≤◌, Bool, None, option_copied};
ghost use Rattle.qz_types.specs.Outcomes.{accepted};
ghost use Rattle.qz_types.specs.Words.{calendar_of};
ghost use Rattle.qz_model.specs.Calendars.{with_new_calendar, add_calendar_refusal, add_calendar, calendar_uses, delete_calendar_refusal, delete_calendar};
ghost use Rattle.qz_model.specs.Invariant.{TablesValid};

use crate::chains::{makes_too_long, place_below};
use crate::known::{is_known_calendar, is_known_zone};
use crate::uses::{calendars_above, triggers_with_calendar, use_refusal};
use qz_tables::Tables;
use qz_types::{CALENDAR_LIMIT, CHAIN_LIMIT, CalendarRow, Refusal, Reply, Text};

/// Stores the calendar, which nothing refuses, in place of one of its name. Triggers keep the next times that they have.
/// The moment is in ms since 1970-01-01T00:00:00Z.
pub fn add_calendar(tables: &mut Tables, moment: i64, calendar: CalendarRow) -> Reply
    requires { 1 ≤ tables.old.spare.calendars }
    ensures { (replace : Bool) → add_calendar_refusal tables.old.tables calendar replace ≡ None → add_calendar tables.old.tables moment calendar replace ≡ accepted tables.new.tables result }
{
    put_calendar(tables, calendar);
    tables.set_last_moment(moment);
    Reply::Done
}

#[tactic(auto, using(qz_model::proofs::NamedRows::calendar_of_without), unfolding(qz_model::specs::Calendars::with_new_calendar))]
fn put_calendar(tables: &mut Tables, calendar: CalendarRow)
    requires { 1 ≤ tables.old.spare.calendars }
    ensures { tables.new.tables ≡ record tables.old.tables { calendars = with_new_calendar calendar tables.old.tables.calendars } }
{
    let removed = tables.remove_calendar(&calendar.name);
    drop(removed);
    tables.insert_calendar(calendar);
}

/// Why the calendar isn't stored, if it isn't.
#[tactic(auto, unfolding(qz_model::specs::Calendars::add_calendar_refusal))]
pub fn add_calendar_refusal(
    tables: &Tables,
    calendar: &CalendarRow,
    replace: bool,
) -> Option<Refusal>
    ensures { result ≡ add_calendar_refusal tables.now.tables calendar.now replace }
{
    let stored = tables.get_calendar(&calendar.name).is_some();
    if !is_known_calendar(tables, &calendar.base) {
        return Some(Refusal::UnknownCalendar);
    }
    if !is_known_zone(tables, &calendar.zone) {
        return Some(Refusal::UnknownZone);
    }
    if stored && !replace {
        return Some(Refusal::CalendarExists);
    }
    if let Some(at) = place_below(tables, calendar) {
        return Some(Refusal::Circle { at });
    }
    if makes_too_long(tables, calendar) {
        return Some(Refusal::TooMany { count: CHAIN_LIMIT });
    }
    if !stored && tables.len_calendars() as u64 >= CALENDAR_LIMIT {
        return Some(Refusal::TooMany {
            count: CALENDAR_LIMIT,
        });
    }
    None
}

/// Deletes the calendar of this name, which nothing refuses. The moment is in ms since 1970-01-01T00:00:00Z.
pub fn delete_calendar(tables: &mut Tables, moment: i64, name: &Text) -> Reply
    requires { delete_calendar_refusal tables.old.tables name.now ≡ None }
    ensures { delete_calendar tables.old.tables moment name.now ≡ accepted tables.new.tables result }
{
    let removed = tables.remove_calendar(name);
    drop(removed);
    tables.set_last_moment(moment);
    Reply::Done
}

/// Why the calendar isn't deleted, if it isn't.
#[tactic(auto, unfolding(qz_model::specs::Calendars::delete_calendar_refusal))]
pub fn delete_calendar_refusal(tables: &Tables, name: &Text) -> Option<Refusal>
    requires valid { ∥ TablesValid tables.now.tables ∥₁ }
    ensures { result ≡ delete_calendar_refusal tables.now.tables name.now }
{
    if tables.get_calendar(name).is_none() {
        return Some(Refusal::UnknownCalendar);
    }
    use_refusal(calendar_uses(tables, name))
}

#[tactic(auto, using(crate::proofs::Counting::few_uses), unfolding(qz_model::specs::Calendars::calendar_uses))]
fn calendar_uses(tables: &Tables, name: &Text) -> u64
    requires valid { ∥ TablesValid tables.now.tables ∥₁ }
    ensures { result ≡ calendar_uses tables.now.tables name.now }
{
    triggers_with_calendar(tables, name) + calendars_above(tables, name)
}
