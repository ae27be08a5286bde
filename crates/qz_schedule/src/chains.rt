//! Chains of calendars: a calendar, that below it, and so on. No walk goes through more than `CHAIN_LIMIT` of them.
ghost use Rattle.std.specs.Prelude.{◌≡◌, ◌<◌, ◌&&◌, not, IfSome, Some, is_some, option_copied};
ghost use Rattle.std.specs.List.{list_any};
ghost use Rattle.qz_types.specs.Chains.{calendar_named, chain_of, ends_within};
ghost use Rattle.qz_types.specs.Words.{same_text, calendar_of};
ghost use Rattle.qz_model.specs.Calendars.{place_in, with_new_calendar, is_too_long, makes_too_long};

use qz_apply::same_text;
use qz_tables::Tables;
use qz_types::{CHAIN_LIMIT, CalendarRow, Text};

/// The place of this calendar, counted from 0, in the chain of its new base, if it is one of that chain.
#[tactic(auto, using(crate::proofs::ChainWalks::nowhere))]
pub fn place_below(tables: &Tables, new: &CalendarRow) -> Option<u64>
    ensures { result ≡ place_in new.now.name (chain_of tables.now.tables.calendars CHAIN_LIMIT (calendar_named tables.now.tables.calendars new.now.base)) }
{
    let Some(first) = below(tables, new) else {
        return None;
    };
    place_in(tables, &new.name, first, CHAIN_LIMIT)
}

// The place of the calendar of this name among the first so many of a chain.
#[tactic(auto, using(crate::proofs::ChainWalks::no_place, crate::proofs::ChainWalks::place_first, crate::proofs::ChainWalks::place_next, crate::proofs::ChainWalks::place_end, crate::proofs::ChainWalks::place_last))]
fn place_in(tables: &Tables, name: &Text, first: &CalendarRow, length: u64) -> Option<u64>
    ensures place { result ≡ place_in name.now (chain_of tables.now.tables.calendars length (Some first.now)) }
    ensures within { IfSome result (λ place. place < length) }
{
    if length == 0 {
        return None;
    }
    if has_name(first, name) {
        return Some(0);
    }
    let Some(next) = below(tables, first) else {
        return None;
    };
    let place = place_in(tables, name, next, length - 1)?;
    Some(place + 1)
}

fn has_name(row: &CalendarRow, name: &Text) -> bool
    ensures { result ≡ same_text name.now row.now.name }
{
    same_text(name.as_str(), row.name.as_str())
}

// The calendar below this one.
fn below<'a>(tables: &'a Tables, row: &CalendarRow) -> Option<&'a CalendarRow>
    ensures { option_copied result ≡ calendar_named tables.now.tables.calendars row.now.base }
{
    match &row.base {
        Some(name) => tables.get_calendar(name),
        None => None,
    }
}

/// Whether some chain would be too long if this calendar were stored: its own, or where it takes the place of a stored
/// calendar that of any other.
#[tactic(auto, using(crate::proofs::ChainWalks::any_others), unfolding(qz_model::specs::Calendars::makes_too_long))]
pub fn makes_too_long(tables: &Tables, new: &CalendarRow) -> bool
    ensures { result ≡ makes_too_long tables.now.tables.calendars new.now }
{
    is_too_long(tables, new, new) || is_stored(tables, new) && makes_other_too_long(tables, new)
}

fn is_stored(tables: &Tables, row: &CalendarRow) -> bool
    ensures { result ≡ is_some (calendar_of row.now.name tables.now.tables.calendars) }
{
    tables.get_calendar(&row.name).is_some()
}

// It looks at every calendar.
#[tactic(auto, using(qz_apply::proofs::Searches::found_at))]
fn makes_other_too_long(tables: &Tables, new: &CalendarRow) -> bool
    ensures { result ≡ list_any (λ c. not (same_text new.now.name c.name) && is_too_long (with_new_calendar new.now tables.now.tables.calendars) c) tables.now.tables.calendars }
{
    for place in 0..tables.len_calendars() {
        let Some(row) = tables.nth_calendar(place) else {
            unreachable!()
        };
        if is_other_too_long(tables, new, row) {
            return true;
        }
    }
    false
}

fn is_other_too_long(tables: &Tables, new: &CalendarRow, row: &CalendarRow) -> bool
    ensures { result ≡ (not (same_text new.now.name row.now.name) && is_too_long (with_new_calendar new.now tables.now.tables.calendars) row.now) }
{
    !has_name(row, &new.name) && is_too_long(tables, new, row)
}

// Whether the chain that begins with this calendar would be too long if the new one were stored.
fn is_too_long(tables: &Tables, new: &CalendarRow, first: &CalendarRow) -> bool
    ensures { result ≡ is_too_long (with_new_calendar new.now tables.now.tables.calendars) first.now }
{
    !ends_within(tables, new, first, CHAIN_LIMIT)
}

// Whether the chain that begins with this calendar would have so many at most.
#[tactic(auto, using(crate::proofs::ChainWalks::never_ends, crate::proofs::ChainWalks::ends_next, crate::proofs::ChainWalks::ends_here))]
fn ends_within(tables: &Tables, new: &CalendarRow, first: &CalendarRow, length: u64) -> bool
    ensures { result ≡ ends_within (with_new_calendar new.now tables.now.tables.calendars) length (Some first.now) }
{
    if length == 0 {
        return false;
    }
    match below_then(tables, new, first) {
        Some(next) => ends_within(tables, new, next, length - 1),
        None => true,
    }
}

// The calendar below this one, if the new one were stored.
fn below_then<'a>(
    tables: &'a Tables,
    new: &'a CalendarRow,
    row: &CalendarRow,
) -> Option<&'a CalendarRow>
    ensures { option_copied result ≡ calendar_named (with_new_calendar new.now tables.now.tables.calendars) row.now.base }
{
    match &row.base {
        Some(name) => calendar_then(tables, new, name),
        None => None,
    }
}

// The calendar of this name, if the new one were stored.
#[tactic(auto, using(crate::proofs::ChainWalks::found_new, crate::proofs::ChainWalks::found_other))]
fn calendar_then<'a>(
    tables: &'a Tables,
    new: &'a CalendarRow,
    name: &Text,
) -> Option<&'a CalendarRow>
    ensures { option_copied result ≡ calendar_of name.now (with_new_calendar new.now tables.now.tables.calendars) }
{
    if has_name(new, name) {
        Some(new)
    } else {
        tables.get_calendar(name)
    }
}
