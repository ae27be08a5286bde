//! Calendars.
ghost use Rattle.std.specs.Prelude.{◌≡◌, ◌/◌, ◌∷◌, ◌++◌, [], OnOk, codes};
ghost use Rattle.qz_json_rows.specs.Calendars as spec;
ghost use Rattle.qz_json_rows.specs.Json.{listed, more as more_spec, quoted};
ghost use Rattle.qz_json_rows.specs.Numbers.{set_text, two};
ghost use Rattle.qz_cron_text.specs.Printing.{canonical_text};

use crate::json::{push_text, push_unsigned};
use crate::lists::{Item, push_list};
use crate::members::{
    more_named, more_plain, more_set, more_unsigned, push_label, push_more, unusual_text,
};
use crate::numbers::{push_set, push_two, unusual_days};
use qz_civil::{CalendarKind, CronFields};
use qz_cron_text::print;
use qz_types::{CalendarRow, NoMemory, Text};
use std::alloc::{AllocError, Global};

/// A day of each year, as `month * 100 + day`.
impl Item for u16 {
    ghost shown = { λ n. spec.annual_day_text n };

    fn push_item(&self, text: &mut Vec<u8>) -> Result<(), AllocError> {
        text.extend_from_slice(b"[")?;
        push_unsigned(text, u64::from(*self / 100))?;
        text.extend_from_slice(b",")?;
        push_unsigned(text, u64::from(*self % 100))?;
        text.extend_from_slice(b"]")
    }
}

/// A date, as `year * 10000 + month * 100 + day`.
impl Item for u32 {
    ghost shown = { λ n. spec.date_text n };

    fn push_item(&self, text: &mut Vec<u8>) -> Result<(), AllocError> {
        push_year(text, *self)?;
        push_month(text, *self)?;
        push_two(text, *self)?;
        text.extend_from_slice(b"\"")
    }
}

// A quotation mark and the year of a date.
fn push_year(text: &mut Vec<u8>, date: u32) -> Result<(), AllocError>
    ensures { OnOk result (text.new.items ≡ text.old.items ++ 34 ∷ two (date / 1000000) ++ two (date / 10000)) }
{
    text.extend_from_slice(b"\"")?;
    push_two(text, date / 1_000_000)?;
    push_two(text, date / 10_000)
}

// The month of a date, between two hyphens.
fn push_month(text: &mut Vec<u8>, date: u32) -> Result<(), AllocError>
    ensures { OnOk result (text.new.items ≡ text.old.items ++ 45 ∷ two (date / 100) ++ 45 ∷ []) }
{
    text.extend_from_slice(b"-")?;
    push_two(text, date / 100)?;
    text.extend_from_slice(b"-")
}

/// Adds a calendar, as documents have it. A cron text takes memory of its own while it is printed.
#[tactic(auto, unfolding(crate::specs::Calendars::calendar_text))]
pub fn push_calendar(
    alloc: Global,
    text: &mut Vec<u8>,
    calendar: &CalendarRow,
) -> Result<(), NoMemory>
    ensures { OnOk result (text.new.items ≡ text.old.items ++ spec.calendar_text calendar.now) }
{
    text.extend_from_slice(b"{")?;
    push_names(text, &calendar.name, &calendar.base, &calendar.zone)?;
    more_plain(text, "kind", word_of(&calendar.kind))?;
    push_kind(alloc, text, &calendar.kind)?;
    text.extend_from_slice(b"}")?;
    Ok(())
}

// Its name, the calendar below it, and its zone.
#[tactic(auto, unfolding(crate::specs::Calendars::name_members))]
fn push_names(
    text: &mut Vec<u8>,
    name: &Text,
    base: &Option<Text>,
    zone: &Text,
) -> Result<(), AllocError>
    ensures { OnOk result (text.new.items ≡ text.old.items ++ spec.name_members name.now base.now zone.now) }
{
    push_label(text, "name")?;
    push_text(text, name.as_str())?;
    more_named(text, "base", base)?;
    unusual_text(text, "zone", "UTC", zone.as_str())
}

fn word_of(kind: &CalendarKind) -> &'static [u8]
    ensures { result.now ≡ spec.kind_word kind.now }
{
    match kind {
        CalendarKind::Annual { days: _ } => b"annual",
        CalendarKind::Holiday { dates: _ } => b"holiday",
        CalendarKind::Weekly { days: _ } => b"weekly",
        CalendarKind::Monthly { days: _ } => b"monthly",
        CalendarKind::Daily {
            from: _,
            to: _,
            inverted: _,
        } => b"daily",
        CalendarKind::Cron { fields: _ } => b"cron",
    }
}

// What it excludes.
fn push_kind(alloc: Global, text: &mut Vec<u8>, kind: &CalendarKind) -> Result<(), NoMemory>
    ensures { OnOk result (text.new.items ≡ text.old.items ++ spec.kind_members kind.now) }
{
    match kind {
        CalendarKind::Annual { days } => Ok(more_list(text, "days", days.as_slice())?),
        CalendarKind::Holiday { dates } => Ok(more_list(text, "dates", dates.as_slice())?),
        CalendarKind::Weekly { days } => Ok(unusual_days(text, "days", 65, *days)?),
        CalendarKind::Monthly { days } => Ok(push_days(text, *days)?),
        CalendarKind::Daily { from, to, inverted } => Ok(push_part(text, *from, *to, *inverted)?),
        CalendarKind::Cron { fields } => push_cron(alloc, text, fields),
    }
}

#[tactic(auto, unfolding(crate::specs::Json::more))]
fn more_list<I: Item>(text: &mut Vec<u8>, name: &str, items: &[I]) -> Result<(), AllocError>
    ensures { OnOk result (text.new.items ≡ text.old.items ++ more_spec name.now (listed I.shown items.now)) }
{
    push_more(text, name)?;
    push_list(text, items)
}

#[tactic(auto, unfolding(crate::specs::Json::more))]
fn push_days(text: &mut Vec<u8>, days: u32) -> Result<(), AllocError>
    ensures { OnOk result (text.new.items ≡ text.old.items ++ more_spec (codes "days") (set_text 31 days)) }
{
    push_more(text, "days")?;
    push_set(text, 31, days)
}

// A part of each day.
#[tactic(auto, unfolding(crate::specs::Calendars::part_members))]
fn push_part(text: &mut Vec<u8>, from: u32, to: u32, inverted: bool) -> Result<(), AllocError>
    ensures { OnOk result (text.new.items ≡ text.old.items ++ spec.part_members from to inverted) }
{
    more_unsigned(text, "from", u64::from(from))?;
    more_unsigned(text, "to", u64::from(to))?;
    more_set(text, "inverted", inverted)
}

/// Adds a cron text, in the one way in which its fields are written.
#[tactic(auto, unfolding(crate::specs::Json::more))]
pub(crate) fn push_cron(
    alloc: Global,
    text: &mut Vec<u8>,
    fields: &CronFields,
) -> Result<(), NoMemory>
    ensures { OnOk result (text.new.items ≡ text.old.items ++ more_spec (codes "cron") (quoted (canonical_text fields.now))) }
{
    let cron = print(alloc, fields)?;
    push_more(text, "cron")?;
    push_text(text, cron.as_str())?;
    Ok(())
}
