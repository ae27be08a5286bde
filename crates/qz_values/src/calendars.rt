//! Kinds of calendars, both ways.
ghost use Rattle.std.specs.Prelude.{◌≡◌, ◌++◌, IsTrue, IfOk, OnOk};
ghost use Rattle.std.specs.Int.{w16, w32};
ghost use Rattle.qz_civil.specs.Calendars as spec;
ghost use Rattle.qz_civil.specs.declared.limits.TheConstants.{ANNUAL_LIMIT, HOLIDAY_LIMIT};
ghost use Rattle.qz_values.specs.Fields.{number, flag, as_variant, checked, byte_at, number_at};
ghost use Rattle.qz_values.specs.Lists.{list_at};
ghost use Rattle.qz_values.specs.Reading.{Gives};
ghost use Rattle.qz_values.specs.CronFields.{cron_fields_at};
ghost use Rattle.qz_values.specs.Calendars as format;
ghost use Rattle.qz_values.specs.declared.versions.Version.TheVariants.{Two};

use crate::cron_fields::{cron_fields_of, put_cron_fields};
use crate::faults::Fault;
use crate::lists::{Item, list_of, put_list};
use crate::numbers::{bool_at, put_bool, put_u8, put_u16, put_u32, u8_at, u16_at, u32_at};
use crate::versions::Version;
use qz_civil::{ANNUAL_LIMIT, CalendarKind, HOLIDAY_LIMIT, List, is_annual_day, is_holiday};
use std::alloc::{AllocError, Global};

fn is_next_day(before: Option<u16>, day: u16) -> bool
    ensures { result ≡ format.is_next spec.is_annual_day before day }
{
    is_annual_day(day)
        && match before {
            None => true,
            Some(before) => before < day,
        }
}

fn is_next_date(version: Version, before: Option<u32>, date: u32) -> bool
    ensures { result ≡ format.is_next (format.is_holiday_of version) before date }
{
    version.has_year(date / 10_000)
        && is_holiday(date)
        && match before {
            None => true,
            Some(before) => before < date,
        }
}

/// A day of an annual calendar. Its days ascend.
impl Item for u16 {
    ghost item = { number w16 };

    ghost item_at = { λ version. format.next_day_at };

    fn put_item(self, out: &mut Vec<u8>) -> Result<(), AllocError> {
        put_u16(out, self)
    }

    fn item_of(_version: Version, before: Option<u16>, bytes: &[u8]) -> Result<(u16, &[u8]), Fault>
        ensures { Gives (λ x. (x.0, x.1.now)) result (format.next_day_at before bytes.now) }
    {
        match u16_at(bytes) {
            Ok((day, _)) if !is_next_day(before, day) => Err(Fault::at(bytes)),
            read => read,
        }
    }
}

/// A date of a calendar of holidays. Its dates ascend.
impl Item for u32 {
    ghost item = { number w32 };

    ghost item_at = { format.next_date_at };

    fn put_item(self, out: &mut Vec<u8>) -> Result<(), AllocError> {
        put_u32(out, self)
    }

    fn item_of(version: Version, before: Option<u32>, bytes: &[u8]) -> Result<(u32, &[u8]), Fault>
        ensures { Gives (λ x. (x.0, x.1.now)) result (format.next_date_at version before bytes.now) }
    {
        match u32_at(bytes) {
            Ok((date, _)) if !is_next_date(version, before, date) => Err(Fault::at(bytes)),
            read => read,
        }
    }
}

/// The days of an annual calendar.
fn days_of(alloc: Global, bytes: &[u8]) -> Result<(List<u16>, &[u8]), Fault>
    ensures exact { Gives (λ x. (x.0, x.1.now)) result (list_at 0 ANNUAL_LIMIT format.next_day_at bytes.now) }
    ensures valid { IfOk result (λ x. IsTrue (spec.is_list_of spec.is_annual_day ANNUAL_LIMIT x.0)) }
{
    // both versions have the same days
    list_of(alloc, Version::Two, bytes, 0, ANNUAL_LIMIT as u16)
}

/// The dates of a calendar of holidays.
fn dates_of(alloc: Global, version: Version, bytes: &[u8]) -> Result<(List<u32>, &[u8]), Fault>
    ensures exact { Gives (λ x. (x.0, x.1.now)) result (list_at 0 HOLIDAY_LIMIT (format.next_date_at version) bytes.now) }
    ensures valid { IfOk result (λ x. IsTrue (spec.is_list_of spec.is_holiday HOLIDAY_LIMIT x.0)) }
{
    list_of(alloc, version, bytes, 0, HOLIDAY_LIMIT as u16)
}

fn annual_of(alloc: Global, bytes: &[u8]) -> Result<(CalendarKind, &[u8]), Fault>
    ensures exact { Gives (λ x. (x.0, x.1.now)) result (as_variant CalendarKind.Annual (list_at 0 ANNUAL_LIMIT format.next_day_at bytes.now)) }
    ensures valid { IfOk result (λ x. IsTrue (spec.is_calendar_kind x.0)) }
{
    let (days, rest) = days_of(alloc, bytes)?;
    Ok((CalendarKind::Annual { days }, rest))
}

fn holiday_of(alloc: Global, version: Version, bytes: &[u8]) -> Result<(CalendarKind, &[u8]), Fault>
    ensures exact { Gives (λ x. (x.0, x.1.now)) result (as_variant CalendarKind.Holiday (list_at 0 HOLIDAY_LIMIT (format.next_date_at version) bytes.now)) }
    ensures valid { IfOk result (λ x. IsTrue (spec.is_calendar_kind x.0)) }
{
    let (dates, rest) = dates_of(alloc, version, bytes)?;
    Ok((CalendarKind::Holiday { dates }, rest))
}

/// Any of the seven days; none too.
fn weekly_of(bytes: &[u8]) -> Result<(CalendarKind, &[u8]), Fault>
    ensures exact { Gives (λ x. (x.0, x.1.now)) result (as_variant CalendarKind.Weekly (checked (λ n. spec.is_calendar_kind (CalendarKind.Weekly n)) byte_at bytes.now)) }
    ensures valid { IfOk result (λ x. IsTrue (spec.is_calendar_kind x.0)) }
{
    match u8_at(bytes) {
        Ok((days, _)) if days >= 128 => Err(Fault::at(bytes)),
        Ok((days, rest)) => Ok((CalendarKind::Weekly { days }, rest)),
        Err(fault) => Err(fault),
    }
}

/// Any of the 31 days; none too.
fn monthly_of(bytes: &[u8]) -> Result<(CalendarKind, &[u8]), Fault>
    ensures exact { Gives (λ x. (x.0, x.1.now)) result (as_variant CalendarKind.Monthly (checked (λ n. spec.is_calendar_kind (CalendarKind.Monthly n)) (number_at w32) bytes.now)) }
    ensures valid { IfOk result (λ x. IsTrue (spec.is_calendar_kind x.0)) }
{
    match u32_at(bytes) {
        Ok((days, _)) if days >= 1 << 31 => Err(Fault::at(bytes)),
        Ok((days, rest)) => Ok((CalendarKind::Monthly { days }, rest)),
        Err(fault) => Err(fault),
    }
}

fn cron_of(version: Version, bytes: &[u8]) -> Result<(CalendarKind, &[u8]), Fault>
    ensures exact { Gives (λ x. (x.0, x.1.now)) result (as_variant CalendarKind.Cron (cron_fields_at version bytes.now)) }
    ensures valid { IfOk result (λ x. IsTrue (spec.is_calendar_kind x.0)) }
{
    let (fields, rest) = cron_fields_of(version, bytes)?;
    Ok((CalendarKind::Cron { fields }, rest))
}

/// A ms of the day that isn't before `from`.
fn milli_of_day(from: u32, bytes: &[u8]) -> Result<(u32, &[u8]), Fault>
    ensures exact { Gives (λ x. (x.0, x.1.now)) result (checked (spec.is_day_part from) (number_at w32) bytes.now) }
    ensures valid { IfOk result (λ x. IsTrue (spec.is_day_part from x.0)) }
{
    match u32_at(bytes) {
        Ok((milli, _)) if milli < from || milli > 86399999 => Err(Fault::at(bytes)),
        read => read,
    }
}

#[tactic(auto, unfolding(crate::specs::Calendars::day_part_at))]
fn day_part_of(bytes: &[u8]) -> Result<(CalendarKind, &[u8]), Fault>
    ensures exact { Gives (λ x. (x.0, x.1.now)) result (format.day_part_at bytes.now) }
    ensures valid { IfOk result (λ x. IsTrue (spec.is_calendar_kind x.0)) }
{
    let (from, rest) = milli_of_day(0, bytes)?;
    let (to, rest) = milli_of_day(from, rest)?;
    let (inverted, rest) = bool_at(rest)?;
    Ok((CalendarKind::Daily { from, to, inverted }, rest))
}

/// What a calendar excludes: the place of its kind in one byte, then what the kind has.
#[tactic(auto, unfolding(crate::specs::Calendars::calendar_kind_at))]
pub fn calendar_kind_of(
    alloc: Global,
    version: Version,
    bytes: &[u8],
) -> Result<(CalendarKind, &[u8]), Fault>
    ensures exact { Gives (λ x. (x.0, x.1.now)) result (format.calendar_kind_at version bytes.now) }
    ensures valid { IfOk result (λ x. IsTrue (spec.is_calendar_kind x.0)) }
{
    let (place, rest) = u8_at(bytes)?;
    match place {
        0 => annual_of(alloc, rest),
        1 => holiday_of(alloc, version, rest),
        2 => weekly_of(rest),
        3 => monthly_of(rest),
        4 => day_part_of(rest),
        5 => cron_of(version, rest),
        _ => Err(Fault::at(bytes)),
    }
}

fn put_day_part(out: &mut Vec<u8>, from: u32, to: u32, inverted: bool) -> Result<(), AllocError>
    ensures { OnOk result (out.new.items ≡ out.old.items ++ (number w32 from ++ (number w32 to ++ flag inverted))) }
{
    put_u32(out, from)?;
    put_u32(out, to)?;
    put_bool(out, inverted)
}

/// Puts what a calendar excludes.
#[tactic(auto, unfolding(crate::specs::Calendars::calendar_kind), using(crate::proofs::Signs::signs))]
pub fn put_calendar_kind(out: &mut Vec<u8>, kind: &CalendarKind) -> Result<(), AllocError>
    requires { IsTrue (spec.is_calendar_kind kind.now) }
    ensures bytes { OnOk result (out.new.items ≡ out.old.items ++ format.calendar_kind kind.now) }
    ensures valid { OnOk result (format.IsCalendarKind Two kind.now) }
{
    match kind {
        CalendarKind::Annual { days } => {
            put_u8(out, 0)?;
            put_list(out, days.as_slice())
        }
        CalendarKind::Holiday { dates } => {
            put_u8(out, 1)?;
            put_list(out, dates.as_slice())
        }
        CalendarKind::Weekly { days } => {
            put_u8(out, 2)?;
            put_u8(out, *days)
        }
        CalendarKind::Monthly { days } => {
            put_u8(out, 3)?;
            put_u32(out, *days)
        }
        CalendarKind::Daily { from, to, inverted } => {
            put_u8(out, 4)?;
            put_day_part(out, *from, *to, *inverted)
        }
        CalendarKind::Cron { fields } => {
            put_u8(out, 5)?;
            put_cron_fields(out, fields)
        }
    }
}
