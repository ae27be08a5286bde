//! Calendars, both ways.
ghost use Rattle.std.specs.Prelude.{◌≡◌, ℕ, ℤ, IsTrue, IfOk, Some, None, ◌++◌, OnOk, IfSome, true};
ghost use Rattle.qz_types.specs.Rows.{is_calendar};
ghost use Rattle.qz_values.specs.Reading.{Gives};
ghost use Rattle.qz_values.specs.Fields.{name_at, optional_at, IsName, text, optional};
ghost use Rattle.qz_codec.specs.Calendars.{calendar_row, IsCalendarRow, calendar_row_at};
ghost use Rattle.qz_values.specs.declared.versions.Version.TheVariants.{Two};

use crate::records::{Recorded, Row};
use qz_civil::beside;
use qz_types::{CalendarRow, Text};
use qz_values::{
    Fault, Version, bool_at, calendar_kind_of, make_texts, name_of, owned_name_of, put_bool,
    put_calendar_kind, put_name,
};
use std::alloc::{AllocError, Global};

/// The name of a calendar, where there is one.
pub(crate) fn calendar_of(alloc: Global, bytes: &[u8]) -> Result<(Option<Text>, &[u8]), Fault>
    ensures exact { Gives (λ x. (x.0, x.1.now)) result (optional_at name_at bytes.now) }
    ensures valid { IfOk result (λ x. IsTrue (is_calendar x.0)) }
{
    let (some, rest) = bool_at(bytes)?;
    if !some {
        return Ok((None, rest));
    }
    let (name, rest) = owned_name_of(alloc, rest)?;
    Ok((Some(name), rest))
}

pub(crate) fn put_calendar(out: &mut Vec<u8>, calendar: &Option<Text>) -> Result<(), AllocError>
    requires { IsTrue (is_calendar calendar.now) }
    ensures bytes { OnOk result (out.new.items ≡ out.old.items ++ optional text calendar.now) }
    ensures valid { OnOk result (IfSome calendar.now IsName) }
{
    match calendar {
        None => put_bool(out, false),
        Some(name) => {
            put_bool(out, true)?;
            put_name(out, name)
        }
    }
}

#[tactic(auto, unfolding(crate::specs::Calendars::calendar_row_at))]
pub(crate) fn calendar_row_of(
    alloc: Global,
    version: Version,
    bytes: &[u8],
) -> Result<(CalendarRow, &[u8]), Fault>
    ensures { Gives (λ x. (x.0, x.1.now)) result (calendar_row_at version bytes.now) }
{
    let (name, rest) = name_of(bytes)?;
    let (base, rest) = calendar_of(alloc, rest)?;
    let (base, (zone, rest)) = beside(base, name_of(rest))?;
    let named = beside(base, make_texts(alloc, name, zone))?;
    let ((base, (name, zone)), (kind, rest)) = beside(
        named,
        calendar_kind_of(alloc, version, rest),
    )?;
    let row = CalendarRow {
        name,
        base,
        zone,
        kind,
    };
    Ok((row, rest))
}

#[tactic(auto, unfolding(crate::specs::Calendars::calendar_row))]
pub(crate) fn put_calendar_row(out: &mut Vec<u8>, row: &CalendarRow) -> Result<(), AllocError>
    ensures bytes { OnOk result (out.new.items ≡ out.old.items ++ calendar_row row.now) }
    ensures valid { OnOk result (IsCalendarRow Two row.now) }
{
    put_name(out, &row.name)?;
    put_calendar(out, &row.base)?;
    put_name(out, &row.zone)?;
    put_calendar_kind(out, &row.kind)
}

impl Recorded for CalendarRow {
    ghost can_put = { λ row. Unit {0} };

    ghost fields = { λ version. calendar_row };

    ghost has_record = { IsCalendarRow };

    ghost fields_at = { calendar_row_at };

    ghost most = { 16994 };

    fn put_fields(&self, out: &mut Vec<u8>) -> Result<(), AllocError> {
        put_calendar_row(out, self)
    }

    fn fields_of(
        alloc: Global,
        version: Version,
        bytes: &[u8],
    ) -> Result<(CalendarRow, &[u8]), Fault> {
        calendar_row_of(alloc, version, bytes)
    }

    fn is_format() {}
}

impl Row for CalendarRow {}
