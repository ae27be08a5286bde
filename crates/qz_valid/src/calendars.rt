//! Calendars and their chains.
ghost use Rattle.std.specs.Prelude.{◌≡◌, Some, option_copied};
ghost use Rattle.std.specs.List.{list_all};
ghost use Rattle.qz_types.specs.Chains.{calendar_named, ends_within};
ghost use Rattle.qz_valid.specs.Calendars.{calendar_fits};

use crate::rows::{is_known_calendar, is_known_zone};
use qz_tables::Tables;
use qz_types::{CHAIN_LIMIT, CalendarRow};

// The calendar below this one.
fn below<'a>(tables: &'a Tables, row: &CalendarRow) -> Option<&'a CalendarRow>
    ensures { option_copied result ≡ calendar_named tables.now.tables.calendars row.now.base }
{
    match &row.base {
        Some(name) => tables.get_calendar(name),
        None => None,
    }
}

// Whether the chain that begins with this calendar has so many at most.
#[tactic(auto, using(crate::proofs::Chains::never_ends, crate::proofs::Chains::ends_next, crate::proofs::Chains::ends_here))]
fn ends_within(tables: &Tables, first: &CalendarRow, length: u64) -> bool
    ensures { result ≡ ends_within tables.now.tables.calendars length (Some first.now) }
{
    if length == 0 {
        return false;
    }
    match below(tables, first) {
        Some(next) => ends_within(tables, next, length - 1),
        None => true,
    }
}

#[tactic(auto, unfolding(crate::specs::Calendars::calendar_fits))]
fn calendar_fits(tables: &Tables, row: &CalendarRow) -> bool
    ensures { result ≡ calendar_fits tables.now.tables row.now }
{
    is_known_calendar(tables, &row.base)
        && is_known_zone(tables, &row.zone)
        && ends_within(tables, row, CHAIN_LIMIT)
}

/// Whether each calendar fits the tables.
#[tactic(auto, using(crate::proofs::Walks::fails_at, crate::proofs::Walks::all_pass))]
pub fn calendars_fit(tables: &Tables) -> bool
    ensures { result ≡ list_all (calendar_fits tables.now.tables) tables.now.tables.calendars }
{
    for place in 0..tables.len_calendars() {
        let Some(row) = tables.nth_calendar(place) else {
            unreachable!()
        };
        if !calendar_fits(tables, row) {
            return false;
        }
    }
    true
}
