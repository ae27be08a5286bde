//! The calendars in lines.
ghost use Rattle.std.specs.Prelude.{◌≡◌, ◌⊎◌, ◌+◌, ◌<◌, ◌≤◌, ◌^◌, ℕ, None, true, false, length, All, IsTrue, IfOk, IfSome, IfNone, option_map};
ghost use Rattle.std.specs.List.{insert};
ghost use Rattle.serde_json.specs.View.{view, items_view};
ghost use Rattle.qz_civil.specs.Calendars.{are_above, is_calendar_kind, is_list_of};
ghost use Rattle.qz_types.specs.Rows.{is_calendar};
ghost use Rattle.qz_job_json.specs.Calendars as spec;
ghost use Rattle.qz_job_json.specs.Faults.{ReadsAs, or_shape};
ghost use Rattle.qz_job_json.specs.Members.{optional_name_at};

use crate::clocks::{number_to, set_to, two_digits};
use crate::faults::{LineError, LineFault};
use crate::forms::{CalendarWord, Form};
use crate::members::{flag_at, has_only, name_at, number_at, optional_name_at, text_at};
use crate::objects::make_both;
use crate::schedules::{make_calendar, zone_at};
use arrayvec::ArrayVec;
use qz_civil::{CalendarKind, DAY_MS, List, NoMemory, beside, is_holiday};
use qz_types::{CalendarRow, Text};
use serde_json::Value;
use std::alloc::{AllocError, Global};

/// `ANNUAL_LIMIT` and `HOLIDAY_LIMIT`, as lengths of arrays.
const ANNUAL: usize = 366;

const HOLIDAYS: usize = 4096;

/// Saturday and Sunday: bit 0 is Sunday.
const WEEKEND: u32 = 65;

/// What a list of days has.
#[derive(Clone, Copy)]
pub(crate) enum Dated {
    /// Days of the year, as `month * 100 + day`.
    DayOfYear,
    /// Dates, as `year * 10000 + month * 100 + day`.
    Date,
}

/// The day of the year that a list of a month and a day is.
#[tactic(auto, unfolding(crate::specs::Calendars::annual_day_of))]
fn annual_day_of(value: &Value) -> Option<u32>
    ensures value { result ≡ spec.annual_day_of (view value.now) }
    ensures valid { IfSome result (λ n. spec.is_valid Dated.DayOfYear n ≡ true) }
{
    if value.get(2).is_some() {
        return None;
    }
    let month = number_to(value.get(0)?, 12)?;
    let day = number_to(value.get(1)?, 31)?;
    Some(month * 100 + day)
}

/// The date that a text YYYY-MM-DD names.
#[tactic(auto, unfolding(crate::specs::Calendars::date_of))]
fn date_of(text: &[u8]) -> Option<u32>
    ensures value { result ≡ spec.date_of text.now }
    ensures valid { IfSome result (λ n. spec.is_valid Dated.Date n ≡ true) }
{
    if text.len() != 10 || text[4] != b'-' || text[7] != b'-' {
        return None;
    }
    let century = two_digits(text, 0, 100)?;
    let year = two_digits(text, 2, 100)?;
    let month = two_digits(text, 5, 100)?;
    let day = two_digits(text, 8, 100)?;
    let date = (century * 100 + year) * 10000 + (month * 100 + day);
    if is_holiday(date) { Some(date) } else { None }
}

/// The day that an item of a list is.
fn number_of(form: Dated, value: &Value) -> Option<u32>
    ensures value { result ≡ spec.number_of form (view value.now) }
    ensures valid { IfSome result (λ n. spec.is_valid form n ≡ true) }
{
    match form {
        Dated::DayOfYear => annual_day_of(value),
        Dated::Date => date_of(value.as_str()?.as_bytes()),
    }
}

/// Where the number is put into ascending numbers, unless they have it.
fn place_for(numbers: &[u32], number: u32) -> Option<usize>
    ensures place { IfSome result (λ at. at ≤ length numbers.now) }
    ensures new { IfSome result (λ at. spec.put number numbers.now ≡ insert numbers.now at number) }
    ensures there { IfNone result (spec.put number numbers.now ≡ numbers.now) }
{
    let mut at = 0;
    for &other in numbers {
        if number <= other {
            return if number == other { None } else { Some(at) };
        }
        at += 1;
    }
    Some(at)
}

/// Puts the number into ascending numbers, unless they have it. False is a number for which there is no room.
fn put<const N: usize>(numbers: &mut ArrayVec<u32, N>, number: u32) -> bool
    ensures put { result ≡ true → numbers.new.items ≡ spec.put number numbers.old.items }
    ensures full { result ≡ false → N < length (spec.put number numbers.old.items) }
    ensures fits { length numbers.new.items ≤ N }
{
    match place_for(numbers.as_slice(), number) {
        Some(at) => numbers.try_insert(at, number).is_ok(),
        None => true,
    }
}

/// The days of a list, in any order and however often each, if at most `N` are left. No memory is wanted.
fn days_of<const N: usize>(items: &[Value], form: Dated) -> Option<ArrayVec<u32, N>>
    ensures value { option_map (λ days. days.items) result ≡ spec.days_of form N (items_view items.now) }
    ensures above { IfSome result (λ days. are_above (spec.is_valid form) None days.items ≡ true) }
{
    let mut days = ArrayVec::new();
    for item in items {
        let number = number_of(form, item)?;
        if !put(&mut days, number) {
            return None;
        }
    }
    Some(days)
}

/// Memory for days of the year.
fn annual_list(alloc: Global, days: &[u32]) -> Result<List<u16>, NoMemory>
    requires { are_above (spec.is_valid Dated.DayOfYear) None days.now ≡ true }
    ensures { IfOk result (λ list. list ≡ days.now) }
{
    let mut list = List::new(alloc);
    for &day in days {
        list.push(day as u16)?;
    }
    Ok(list)
}

#[tactic(auto, unfolding(crate::specs::Calendars::annual_of))]
fn annual_of(alloc: Global, value: &Value) -> Result<CalendarKind, LineError>
    ensures value { ReadsAs result (or_shape (spec.annual_of (view value.now))) }
    ensures valid { IfOk result (λ kind. is_calendar_kind kind ≡ true) }
{
    let items = value
        .get("days")
        .and_then(Value::as_array)
        .ok_or(LineFault::Shape)?;
    let days = days_of::<ANNUAL>(items.as_slice(), Dated::DayOfYear).ok_or(LineFault::Shape)?;
    let days = annual_list(alloc, days.as_slice())?;
    Ok(CalendarKind::Annual { days })
}

#[tactic(auto, unfolding(crate::specs::Calendars::holiday_of))]
fn holiday_of(alloc: Global, value: &Value) -> Result<CalendarKind, LineError>
    ensures value { ReadsAs result (or_shape (spec.holiday_of (view value.now))) }
    ensures valid { IfOk result (λ kind. is_calendar_kind kind ≡ true) }
{
    let items = value
        .get("dates")
        .and_then(Value::as_array)
        .ok_or(LineFault::Shape)?;
    let dates = days_of::<HOLIDAYS>(items.as_slice(), Dated::Date).ok_or(LineFault::Shape)?;
    let dates = Vec::from_slice(alloc, dates.as_slice())?;
    Ok(CalendarKind::Holiday {
        dates: List::from_vec(dates),
    })
}

fn weekly_of(value: &Value) -> Option<CalendarKind>
    ensures value { result ≡ spec.weekly_of (view value.now) }
    ensures valid { IfSome result (λ kind. is_calendar_kind kind ≡ true) }
{
    let days = match value.get("days") {
        Some(member) => set_to(member.as_array()?.as_slice(), 7)?,
        None => WEEKEND,
    };
    Some(CalendarKind::Weekly { days: days as u8 })
}

fn monthly_of(value: &Value) -> Option<CalendarKind>
    ensures value { result ≡ spec.monthly_of (view value.now) }
    ensures valid { IfSome result (λ kind. is_calendar_kind kind ≡ true) }
{
    let items = value.get("days").and_then(Value::as_array)?;
    let days = set_to(items.as_slice(), 31)?;
    Some(CalendarKind::Monthly { days })
}

/// The millisecond of the day under this name.
fn milli_at(value: &Value, name: &str) -> Option<u32>
    ensures value { result ≡ spec.milli_at name.now (view value.now) }
    ensures small { IfSome result (λ n. n < 86400000) }
{
    let milli = number_at(value, name)?;
    if milli < DAY_MS {
        Some(milli as u32)
    } else {
        None
    }
}

#[tactic(auto, unfolding(crate::specs::Calendars::daily_of))]
fn daily_of(value: &Value) -> Option<CalendarKind>
    ensures value { result ≡ spec.daily_of (view value.now) }
    ensures valid { IfSome result (λ kind. is_calendar_kind kind ≡ true) }
{
    let from = milli_at(value, "from")?;
    let to = milli_at(value, "to")?;
    let inverted = flag_at(value, "inverted")?;
    if from <= to {
        Some(CalendarKind::Daily { from, to, inverted })
    } else {
        None
    }
}

#[tactic(auto, unfolding(crate::specs::Calendars::cron_of))]
fn cron_of(value: &Value) -> Result<CalendarKind, LineFault>
    ensures value { result ≡ spec.cron_of (view value.now) }
    ensures valid { IfOk result (λ kind. is_calendar_kind kind ≡ true) }
{
    let text = text_at(value, "cron").ok_or(LineFault::Shape)?;
    let fields = qz_cron_text::parse(text).map_err(LineFault::Cron)?;
    Ok(CalendarKind::Cron { fields })
}

fn kind_of(alloc: Global, value: &Value, word: CalendarWord) -> Result<CalendarKind, LineError>
    ensures value { ReadsAs result (spec.kind_of word (view value.now)) }
    ensures valid { IfOk result (λ kind. is_calendar_kind kind ≡ true) }
{
    match word {
        CalendarWord::Annual => annual_of(alloc, value),
        CalendarWord::Holiday => holiday_of(alloc, value),
        CalendarWord::Weekly => Ok(weekly_of(value).ok_or(LineFault::Shape)?),
        CalendarWord::Monthly => Ok(monthly_of(value).ok_or(LineFault::Shape)?),
        CalendarWord::Daily => Ok(daily_of(value).ok_or(LineFault::Shape)?),
        CalendarWord::Cron => Ok(cron_of(value)?),
    }
}

/// Memory for the names of a calendar.
fn make_names(
    alloc: Global,
    name: &str,
    base: Option<&str>,
    zone: &str,
) -> Result<(Option<Text>, (Text, Text)), AllocError>
    ensures base { IfOk result (λ made. made.0 ≡ option_map (λ text. text.now) base.entry) }
    ensures name { IfOk result (λ made. made.1.0 ≡ name.now) }
    ensures zone { IfOk result (λ made. made.1.1 ≡ zone.now) }
{
    let base = make_calendar(alloc, base)?;
    beside(base, make_both(alloc, name, zone))
}

/// A calendar of that kind.
#[tactic(auto, unfolding(crate::specs::Calendars::calendar_of))]
fn calendar_of(alloc: Global, value: &Value, word: CalendarWord) -> Result<CalendarRow, LineError>
    ensures { ReadsAs result (spec.calendar_of word (view value.now)) }
{
    let name = name_at(value, "name").ok_or(LineFault::Shape)?;
    let base = optional_name_at(value, "base").ok_or(LineFault::Shape)?;
    let zone = zone_at(value).ok_or(LineFault::Shape)?;
    let kind = kind_of(alloc, value, word)?;
    let (kind, (base, (name, zone))) = beside(kind, make_names(alloc, name, base, zone))?;
    Ok(CalendarRow {
        name,
        base,
        zone,
        kind,
    })
}

fn calendar_word_at(value: &Value) -> Option<CalendarWord>
    ensures { result ≡ spec.calendar_word_at (view value.now) }
{
    CalendarWord::of(text_at(value, "kind")?)
}

/// The calendar that the object is. A calendar of another shape is refused before memory is wanted.
pub(crate) fn calendar_by_kind(alloc: Global, value: &Value) -> Result<CalendarRow, LineError>
    ensures { ReadsAs result (spec.calendar_by_kind (view value.now)) }
{
    let word = calendar_word_at(value).ok_or(LineFault::Shape)?;
    if !has_only(value, Form::CalendarOf(word)) {
        return Err(LineError::Bad(LineFault::Shape));
    }
    calendar_of(alloc, value, word)
}
