//! The fields of a cron text, both ways.
ghost use Rattle.std.specs.Prelude.{◌≡◌, ℕ, nat_le, ◌&&◌, not, true, false, IsTrue, IfOk, ◌<◌, ◌++◌, length, OnOk};
ghost use Rattle.std.specs.Int.{w16, w32, w64};
ghost use Rattle.qz_civil.specs.Fields as rules;
ghost use Rattle.qz_civil.specs.declared.fields.Field.TheVariants.{DayOfMonth, DayOfWeek};
ghost use Rattle.qz_values.specs.Reading.{Gives};
ghost use Rattle.qz_values.specs.Fields.{checked, byte_at, number_at, text};
ghost use Rattle.qz_values.specs.Versions.{has_third_word};
ghost use Rattle.qz_values.specs.CronFields.{set_at, day_at, nth_at, named_week_at, any_week_at, week_at, years_at, cron_fields_at, day_field, week_field, words, cron_fields};

use crate::faults::Fault;
use crate::numbers::{put_u8, put_u16, put_u32, put_u64, u8_at, u16_at, u32_at, u64_at};
use crate::versions::Version;
use qz_civil::{CronFields, DayField, Field, WeekField, is_year_set};
use std::alloc::AllocError;

fn u64_set_of(field: Field, bytes: &[u8]) -> Result<(u64, &[u8]), Fault>
    ensures exact { Gives (λ x. (x.0, x.1.now)) result (set_at field w64 bytes.now) }
    ensures valid { IfOk result (λ x. IsTrue (rules.is_set field x.0)) }
{
    match u64_at(bytes) {
        Ok((set, _)) if !field.is_set(set) => Err(Fault::at(bytes)),
        read => read,
    }
}

fn u32_set_of(field: Field, bytes: &[u8]) -> Result<(u32, &[u8]), Fault>
    ensures exact { Gives (λ x. (x.0, x.1.now)) result (set_at field w32 bytes.now) }
    ensures valid { IfOk result (λ x. IsTrue (rules.is_set field x.0)) }
{
    match u32_at(bytes) {
        Ok((set, _)) if !field.is_set(u64::from(set)) => Err(Fault::at(bytes)),
        read => read,
    }
}

fn u16_set_of(field: Field, bytes: &[u8]) -> Result<(u16, &[u8]), Fault>
    ensures exact { Gives (λ x. (x.0, x.1.now)) result (set_at field w16 bytes.now) }
    ensures valid { IfOk result (λ x. IsTrue (rules.is_set field x.0)) }
{
    match u16_at(bytes) {
        Ok((set, _)) if !field.is_set(u64::from(set)) => Err(Fault::at(bytes)),
        read => read,
    }
}

fn u8_set_of(field: Field, bytes: &[u8]) -> Result<(u8, &[u8]), Fault>
    ensures exact { Gives (λ x. (x.0, x.1.now)) result (checked (rules.is_set field) byte_at bytes.now) }
    ensures valid { IfOk result (λ x. IsTrue (rules.is_set field x.0)) }
{
    match u8_at(bytes) {
        Ok((set, _)) if !field.is_set(u64::from(set)) => Err(Fault::at(bytes)),
        read => read,
    }
}

fn value_of(field: Field, bytes: &[u8]) -> Result<(u8, &[u8]), Fault>
    ensures exact { Gives (λ x. (x.0, x.1.now)) result (checked (rules.is_value field) byte_at bytes.now) }
    ensures valid { IfOk result (λ x. IsTrue (rules.is_value field x.0)) }
{
    match u8_at(bytes) {
        Ok((value, _)) if !field.is_value(u16::from(value)) => Err(Fault::at(bytes)),
        read => read,
    }
}

/// How many days before the month's last day.
fn back_of(bytes: &[u8]) -> Result<(u8, &[u8]), Fault>
    ensures exact { Gives (λ x. (x.0, x.1.now)) result (checked (λ n. nat_le n 30) byte_at bytes.now) }
    ensures valid { IfOk result (λ x. IsTrue (nat_le x.0 30)) }
{
    match u8_at(bytes) {
        Ok((back, _)) if back > 30 => Err(Fault::at(bytes)),
        read => read,
    }
}

#[tactic(auto, unfolding(crate::specs::CronFields::day_at, qz_civil::specs::Fields::is_day_field))]
fn day_of(bytes: &[u8]) -> Result<(DayField, &[u8]), Fault>
    ensures exact { Gives (λ x. (x.0, x.1.now)) result (day_at bytes.now) }
    ensures valid { IfOk result (λ x. IsTrue (rules.is_day_field x.0)) }
{
    let (place, rest) = u8_at(bytes)?;
    match place {
        0 => Ok((DayField::Any, rest)),
        1 => {
            let (set, rest) = u32_set_of(Field::DayOfMonth, rest)?;
            Ok((DayField::Set(set), rest))
        }
        2 => {
            let (back, rest) = back_of(rest)?;
            Ok((DayField::Last { back }, rest))
        }
        3 => Ok((DayField::LastWeekday, rest)),
        4 => {
            let (day, rest) = value_of(Field::DayOfMonth, rest)?;
            Ok((DayField::Nearest { day }, rest))
        }
        _ => Err(Fault::at(bytes)),
    }
}

/// Which of the month's weeks.
fn week_number_of(bytes: &[u8]) -> Result<(u8, &[u8]), Fault>
    ensures exact { Gives (λ x. (x.0, x.1.now)) result (checked (λ n. nat_le 1 n && nat_le n 5) byte_at bytes.now) }
    ensures valid { IfOk result (λ x. IsTrue (nat_le 1 x.0 && nat_le x.0 5)) }
{
    match u8_at(bytes) {
        Ok((nth, _)) if nth < 1 || nth > 5 => Err(Fault::at(bytes)),
        read => read,
    }
}

#[tactic(auto, unfolding(crate::specs::CronFields::nth_at, qz_civil::specs::Fields::is_week_field))]
fn nth_of(bytes: &[u8]) -> Result<(WeekField, &[u8]), Fault>
    ensures exact { Gives (λ x. (x.0, x.1.now)) result (nth_at bytes.now) }
    ensures valid { IfOk result (λ x. IsTrue (rules.is_week_field x.0)) }
    ensures named { IfOk result (λ x. rules.is_any_week x.0 ≡ false) }
{
    let (day, rest) = value_of(Field::DayOfWeek, bytes)?;
    let (nth, rest) = week_number_of(rest)?;
    Ok((WeekField::Nth { day, nth }, rest))
}

/// Days of the week that the text names.
#[tactic(auto, unfolding(crate::specs::CronFields::named_week_at, qz_civil::specs::Fields::is_week_field))]
fn named_week_of(bytes: &[u8]) -> Result<(WeekField, &[u8]), Fault>
    ensures exact { Gives (λ x. (x.0, x.1.now)) result (named_week_at bytes.now) }
    ensures valid { IfOk result (λ x. IsTrue (rules.is_week_field x.0)) }
    ensures named { IfOk result (λ x. rules.is_any_week x.0 ≡ false) }
{
    let (place, rest) = u8_at(bytes)?;
    match place {
        1 => {
            let (set, rest) = u8_set_of(Field::DayOfWeek, rest)?;
            Ok((WeekField::Set(set), rest))
        }
        2 => {
            let (day, rest) = value_of(Field::DayOfWeek, rest)?;
            Ok((WeekField::Last { day }, rest))
        }
        3 => nth_of(rest),
        _ => Err(Fault::at(bytes)),
    }
}

#[tactic(auto, unfolding(crate::specs::CronFields::any_week_at, qz_civil::specs::Fields::is_week_field))]
fn any_week_of(bytes: &[u8]) -> Result<(WeekField, &[u8]), Fault>
    ensures exact { Gives (λ x. (x.0, x.1.now)) result (any_week_at bytes.now) }
    ensures valid { IfOk result (λ x. IsTrue (rules.is_week_field x.0)) }
    ensures any { IfOk result (λ x. rules.is_any_week x.0 ≡ true) }
{
    let (place, rest) = u8_at(bytes)?;
    if place != 0 {
        return Err(Fault::at(bytes));
    }
    Ok((WeekField::Any, rest))
}

/// The days of the week beside these of the month: just one of both says nothing.
fn week_of(day: DayField, bytes: &[u8]) -> Result<(WeekField, &[u8]), Fault>
    ensures exact { Gives (λ x. (x.0, x.1.now)) result (week_at day bytes.now) }
    ensures valid { IfOk result (λ x. IsTrue (rules.is_week_field x.0)) }
    ensures one { IfOk result (λ x. rules.is_any_week x.0 ≡ not (rules.is_any_day day)) }
{
    if day.is_any() {
        named_week_of(bytes)
    } else {
        any_week_of(bytes)
    }
}

fn third_word_of(version: Version, bytes: &[u8]) -> Result<(u64, &[u8]), Fault>
    ensures { Gives (λ x. (x.0, x.1.now)) result (checked (has_third_word version) (number_at w64) bytes.now) }
{
    match u64_at(bytes) {
        Ok((word, _)) if !version.has_third_word(word) => Err(Fault::at(bytes)),
        read => read,
    }
}

/// Bit j of word i is the year 1970 + 64 * i + j.
#[tactic(auto, unfolding(crate::specs::CronFields::years_at))]
fn years_of(version: Version, bytes: &[u8]) -> Result<([u64; 4], &[u8]), Fault>
    ensures exact { Gives (λ x. (x.0, x.1.now)) result (years_at version bytes.now) }
    ensures valid { IfOk result (λ x. IsTrue (rules.is_year_set x.0)) }
{
    let (first, rest) = u64_at(bytes)?;
    let (second, rest) = u64_at(rest)?;
    let (third, rest) = third_word_of(version, rest)?;
    let (fourth, after) = u64_at(rest)?;
    let years = [first, second, third, fourth];
    if !version.has_years(years) || !is_year_set(years) {
        return Err(Fault::at(rest));
    }
    Ok((years, after))
}

#[tactic(auto, unfolding(crate::specs::CronFields::cron_fields_at, qz_civil::specs::Fields::is_time_fields, qz_civil::specs::Fields::is_date_fields))]
pub(crate) fn cron_fields_of(version: Version, bytes: &[u8]) -> Result<(CronFields, &[u8]), Fault>
    ensures exact { Gives (λ x. (x.0, x.1.now)) result (cron_fields_at version bytes.now) }
    ensures valid { IfOk result (λ x. IsTrue (rules.is_cron_fields x.0)) }
{
    let (seconds, rest) = u64_set_of(Field::Seconds, bytes)?;
    let (minutes, rest) = u64_set_of(Field::Minutes, rest)?;
    let (hours, rest) = u32_set_of(Field::Hours, rest)?;
    let (day, rest) = day_of(rest)?;
    let (months, rest) = u16_set_of(Field::Month, rest)?;
    let (week, rest) = week_of(day, rest)?;
    let (years, rest) = years_of(version, rest)?;
    let fields = CronFields {
        seconds,
        minutes,
        hours,
        day,
        months,
        week,
        years,
    };
    Ok((fields, rest))
}

#[tactic(auto, unfolding(crate::specs::CronFields::day_field), using(crate::proofs::Signs::signs))]
fn put_day(out: &mut Vec<u8>, day: DayField) -> Result<(), AllocError>
    ensures { OnOk result (out.new.items ≡ out.old.items ++ day_field day) }
{
    match day {
        DayField::Any => put_u8(out, 0),
        DayField::Set(set) => {
            put_u8(out, 1)?;
            put_u32(out, set)
        }
        DayField::Last { back } => {
            put_u8(out, 2)?;
            put_u8(out, back)
        }
        DayField::LastWeekday => put_u8(out, 3),
        DayField::Nearest { day } => {
            put_u8(out, 4)?;
            put_u8(out, day)
        }
    }
}

#[tactic(auto, unfolding(crate::specs::CronFields::week_field), using(crate::proofs::Signs::signs))]
fn put_week(out: &mut Vec<u8>, week: WeekField) -> Result<(), AllocError>
    ensures { OnOk result (out.new.items ≡ out.old.items ++ week_field week) }
{
    match week {
        WeekField::Any => put_u8(out, 0),
        WeekField::Set(set) => {
            put_u8(out, 1)?;
            put_u8(out, set)
        }
        WeekField::Last { day } => {
            put_u8(out, 2)?;
            put_u8(out, day)
        }
        WeekField::Nth { day, nth } => {
            put_u8(out, 3)?;
            put_u8(out, day)?;
            put_u8(out, nth)
        }
    }
}

#[tactic(auto, unfolding(crate::specs::CronFields::words), using(crate::proofs::Signs::signs))]
fn put_years(out: &mut Vec<u8>, years: [u64; 4]) -> Result<(), AllocError>
    ensures bytes { OnOk result (out.new.items ≡ out.old.items ++ words years) }
    ensures size { length years ≡ 4 }
{
    let [first, second, third, fourth] = years;
    put_u64(out, first)?;
    put_u64(out, second)?;
    put_u64(out, third)?;
    put_u64(out, fourth)
}

#[tactic(auto, unfolding(crate::specs::CronFields::cron_fields), using(crate::proofs::Signs::signs))]
pub(crate) fn put_cron_fields(out: &mut Vec<u8>, fields: &CronFields) -> Result<(), AllocError>
    ensures bytes { OnOk result (out.new.items ≡ out.old.items ++ cron_fields fields.now) }
    ensures size { OnOk result (length fields.now.years ≡ 4) }
{
    put_u64(out, fields.seconds)?;
    put_u64(out, fields.minutes)?;
    put_u32(out, fields.hours)?;
    put_day(out, fields.day)?;
    put_u16(out, fields.months)?;
    put_week(out, fields.week)?;
    put_years(out, fields.years)
}
