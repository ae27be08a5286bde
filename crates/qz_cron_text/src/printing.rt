//! Prints the canonical text.
ghost use Rattle.std.specs.Prelude.{◌≡◌, ◌<◌, ◌++◌, OnOk, IfOk, IsTrue, length, string_bytes};
ghost use Rattle.qz_civil.specs.Fields.{size, has_word, is_cron_fields};
ghost use Rattle.qz_cron_text.specs.Printing.{has_all, member_text, values_text, set_text, one_word, day_text, week_text, years_text, times_text, dates_text, canonical_text};
ghost use Rattle.qz_cron_text.specs.Reading.{reading};

use qz_civil::{CronFields, DayField, Field, NoMemory, Text, WeekField, has_bit};
use std::alloc::{AllocError, Global};
use std::fmt::Write;

// The values of a field from its least on, 64 a word.
type Set = [u64; 4];

// A set of up to 64 values.
fn one_word(set: u64) -> Set
    ensures { result ≡ one_word set }
{
    [set, 0, 0, 0]
}

// Whether a set has its `index`th value.
#[tactic(auto, unfolding(qz_civil::specs::Fields::has_word))]
fn has_value(set: &Set, index: u16) -> bool
    requires { index < 256 }
    ensures { result ≡ has_word set.now index }
{
    has_bit(set[index as usize / 64], index as u32 % 64)
}

// Whether a set has each of its field's values.
#[tactic(auto, using(crate::proofs::Prints::all_steps, crate::proofs::FieldLemmas::field_bounds))]
fn is_full(field: Field, set: &Set) -> bool
    ensures { result ≡ has_all set.now (size field) }
{
    for index in 0..field.size() {
        if !has_value(set, index) {
            return false;
        }
    }
    true
}

// Adds a value if it is there, after a comma unless it is the first.
#[tactic(auto, unfolding(crate::specs::Printing::member_text))]
fn push_member(text: &mut String, there: bool, first: bool, value: u16) -> Result<(), AllocError>
    ensures { OnOk result (string_bytes text.new ≡ string_bytes text.old ++ member_text there first value) }
{
    if there {
        if first {
            write!(text, "{value}")?;
        } else {
            write!(text, ",{value}")?;
        }
    }
    Ok(())
}

// Adds the values of a set.
#[tactic(auto, using(crate::proofs::Prints::member_steps, crate::proofs::FieldLemmas::field_bounds))]
fn push_values(text: &mut String, field: Field, set: &Set) -> Result<(), AllocError>
    ensures { OnOk result (string_bytes text.new ≡ string_bytes text.old ++ values_text field set.now (size field)) }
{
    let mut first = true;
    for index in 0..field.size() {
        let there = has_value(set, index);
        push_member(text, there, first, field.least() + index)?;
        first = first && !there;
    }
    Ok(())
}

// Adds a set: `*` where it has each value, else its values.
#[tactic(auto, unfolding(crate::specs::Printing::set_text))]
fn push_set(text: &mut String, field: Field, set: Set) -> Result<(), AllocError>
    ensures { OnOk result (string_bytes text.new ≡ string_bytes text.old ++ set_text field set) }
{
    if is_full(field, &set) {
        text.push('*')
    } else {
        push_values(text, field, &set)
    }
}

// Adds the days of the month.
#[tactic(auto, unfolding(crate::specs::Printing::day_text))]
fn push_day(text: &mut String, day: DayField) -> Result<(), AllocError>
    ensures { OnOk result (string_bytes text.new ≡ string_bytes text.old ++ day_text day) }
{
    match day {
        DayField::Any => text.push('?'),
        DayField::Set(days) => push_set(text, Field::DayOfMonth, one_word(days as u64)),
        DayField::Last { back } => {
            if back == 0 {
                text.push('L')
            } else {
                write!(text, "L-{back}")
            }
        }
        DayField::LastWeekday => text.push_str("LW"),
        DayField::Nearest { day } => write!(text, "{day}W"),
    }
}

// Adds the days of the week.
#[tactic(auto, unfolding(crate::specs::Printing::week_text))]
fn push_week(text: &mut String, week: WeekField) -> Result<(), AllocError>
    ensures { OnOk result (string_bytes text.new ≡ string_bytes text.old ++ week_text week) }
{
    match week {
        WeekField::Any => text.push('?'),
        WeekField::Set(days) => push_set(text, Field::DayOfWeek, one_word(days as u64)),
        WeekField::Last { day } => write!(text, "{day}L"),
        WeekField::Nth { day, nth } => write!(text, "{day}#{nth}"),
    }
}

// Adds the years as a further field, unless they are all.
#[tactic(auto, unfolding(crate::specs::Printing::years_text))]
fn push_years(text: &mut String, years: &Set) -> Result<(), AllocError>
    ensures text { OnOk result (string_bytes text.new ≡ string_bytes text.old ++ years_text years.now) }
    ensures four { length years.now ≡ 4 }
{
    if is_full(Field::Year, years) {
        return Ok(());
    }
    text.push(' ')?;
    push_values(text, Field::Year, years)
}

// Adds the seconds, minutes and hours.
#[tactic(auto, unfolding(crate::specs::Printing::times_text))]
fn push_times(text: &mut String, fields: &CronFields) -> Result<(), AllocError>
    ensures { OnOk result (string_bytes text.new ≡ string_bytes text.old ++ times_text fields.now) }
{
    push_set(text, Field::Seconds, one_word(fields.seconds))?;
    text.push(' ')?;
    push_set(text, Field::Minutes, one_word(fields.minutes))?;
    text.push(' ')?;
    push_set(text, Field::Hours, one_word(fields.hours as u64))
}

// Adds the days, months and weekdays.
#[tactic(auto, unfolding(crate::specs::Printing::dates_text))]
fn push_dates(text: &mut String, fields: &CronFields) -> Result<(), AllocError>
    ensures { OnOk result (string_bytes text.new ≡ string_bytes text.old ++ dates_text fields.now) }
{
    push_day(text, fields.day)?;
    text.push(' ')?;
    push_set(text, Field::Month, one_word(fields.months as u64))?;
    text.push(' ')?;
    push_week(text, fields.week)
}

// Adds the fields.
#[tactic(auto, unfolding(crate::specs::Printing::canonical_text))]
fn push_fields(text: &mut String, fields: &CronFields) -> Result<(), AllocError>
    ensures text { OnOk result (string_bytes text.new ≡ string_bytes text.old ++ canonical_text fields.now) }
    ensures four { OnOk result (length fields.now.years ≡ 4) }
{
    push_times(text, fields)?;
    text.push(' ')?;
    push_dates(text, fields)?;
    push_years(text, &fields.years)
}

/// The canonical text: single spaces, a set as `*` where it has each value and else as its ascending values, weekdays and
/// months as numbers, and no year field where all years are meant. Fields that no text means, as those with an empty set,
/// are printed too, but their text isn't read as them.
pub fn print(alloc: Global, fields: &CronFields) -> Result<Text, NoMemory>
    ensures text { IfOk result (λ text. text ≡ canonical_text fields.now) }
    // Valid fields are read again.
    ensures again { IsTrue (is_cron_fields fields.now) → IfOk result (λ text. reading text ≡ Ok fields.now) }
{
    let mut text = String::new(alloc);
    push_fields(&mut text, fields)?;
    Ok(Text::from_string(text))
}
