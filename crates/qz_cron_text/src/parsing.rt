//! Reads a cron text.
ghost use Rattle.std.specs.Prelude.{◌≡◌, ◌<◌, ◌≤◌, ◌^◌, IfOk, IfErr, IfSome, IsTrue};
ghost use Rattle.std.specs.Option.{option_map};
ghost use Rattle.qz_civil.specs.Fields.{size, is_cron_fields};
ghost use Rattle.qz_cron_text.specs.Faults.{IsFirstFault};
ghost use Rattle.qz_cron_text.specs.Grammar.{IsText};
ghost use Rattle.qz_cron_text.specs.Reading.{word_at, day_of, week_of, years_at, years_of, days_checked, fields_of, reading};
ghost use Rattle.qz_cron_text.specs.Seen.{placed_piece, whole_pieces, IsWithin, AreWithin};

use crate::elements::field_of;
use crate::errors::CronError;
use crate::forms::{DayForm, WeekForm};
use crate::texts::{Piece, Pieces, pieces_of};
use qz_civil::{CronFields, DayField, Field, WeekField};

// The set of the weekday 7.
const SATURDAY: u8 = 64;

// The values from number `from` on of a field.
fn word_at(field: Field, from: u16, piece: Piece<'_>) -> Result<u64, CronError>
    requires from { from ≤ 1000 }
    requires within { IsWithin (2 ^ 63) piece }
    ensures value { result ≡ word_at field from (placed_piece piece.entry) }
    ensures small { from ≡ 0 → IfOk result (λ word. word < 2 ^ size field) }
{
    let found = field_of(field, from, piece.at, piece.text)?;
    Ok(found.word)
}

// The days of the month.
#[tactic(auto, unfolding(crate::specs::Reading::day_of, qz_civil::specs::Fields::size, qz_civil::specs::Fields::is_value, qz_civil::specs::Fields::greatest, qz_civil::specs::Fields::least, crate::specs::Forms::day_fault))]
fn day_of(piece: Piece<'_>) -> Result<DayField, CronError>
    requires within { IsWithin (2 ^ 63) piece }
    ensures value { result ≡ day_of (placed_piece piece.entry) }
{
    let found = field_of(Field::DayOfMonth, 0, piece.at, piece.text)?;
    Ok(match found.day {
        None => DayField::Set(found.word as u32),
        Some(DayForm::Unnamed) => DayField::Any,
        Some(DayForm::Last(back)) => DayField::Last { back: back as u8 },
        Some(DayForm::LastWeekday) => DayField::LastWeekday,
        Some(DayForm::Nearest(day)) => DayField::Nearest { day: day as u8 },
    })
}

// The days of the week.
#[tactic(auto, unfolding(crate::specs::Reading::week_of, qz_civil::specs::Fields::size, qz_civil::specs::Fields::is_value, qz_civil::specs::Fields::greatest, qz_civil::specs::Fields::least, crate::specs::Forms::week_fault))]
fn week_of(piece: Piece<'_>) -> Result<WeekField, CronError>
    requires within { IsWithin (2 ^ 63) piece }
    ensures value { result ≡ week_of (placed_piece piece.entry) }
{
    let found = field_of(Field::DayOfWeek, 0, piece.at, piece.text)?;
    Ok(match found.week {
        None => WeekField::Set(found.word as u8),
        Some(WeekForm::Unnamed) => WeekField::Any,
        Some(WeekForm::Saturday) => WeekField::Set(SATURDAY),
        Some(WeekForm::LastOf(day)) => WeekField::Last { day: day as u8 },
        Some(WeekForm::Nth(day, nth)) => WeekField::Nth {
            day: day as u8,
            nth: nth as u8,
        },
    })
}

// The years, 64 a word.
fn years_at(piece: Piece<'_>) -> Result<[u64; 4], CronError>
    requires within { IsWithin (2 ^ 63) piece }
    ensures { result ≡ years_at (placed_piece piece.entry) }
{
    let first = word_at(Field::Year, 0, piece)?;
    let second = word_at(Field::Year, 64, piece)?;
    let third = word_at(Field::Year, 128, piece)?;
    let fourth = word_at(Field::Year, 192, piece)?;
    Ok([first, second, third, fourth])
}

// The years, all where the field is absent.
#[tactic(auto, unfolding(crate::specs::Reading::years_of))]
fn years_of(piece: Option<Piece<'_>>) -> Result<[u64; 4], CronError>
    requires within { IfSome piece (λ p. IsWithin (2 ^ 63) p) }
    ensures value { result ≡ years_of (option_map placed_piece piece.entry) }
{
    match piece {
        Some(piece) => years_at(piece),
        None => years_at(Piece { at: 0, text: b"*" }),
    }
}

// Exactly one of the two day fields names no value.
#[tactic(auto, unfolding(crate::specs::Reading::days_checked))]
fn days_checked(fields: CronFields) -> Result<CronFields, CronError>
    ensures { result ≡ days_checked fields }
{
    let any_day = fields.day.is_any();
    let any_week = matches!(fields.week, WeekField::Any);
    if !any_day && !any_week {
        Err(CronError::BothDays)
    } else if any_day && any_week {
        Err(CronError::NoDays)
    } else {
        Ok(fields)
    }
}

// The fields from the left.
#[tactic(auto, unfolding(crate::specs::Reading::fields_of, qz_civil::specs::Fields::size))]
fn fields_of(pieces: Pieces<'_>) -> Result<CronFields, CronError>
    requires within { AreWithin (2 ^ 63) pieces }
    ensures { result ≡ fields_of (whole_pieces pieces.entry) }
{
    let seconds = word_at(Field::Seconds, 0, pieces.seconds)?;
    let minutes = word_at(Field::Minutes, 0, pieces.minutes)?;
    let hours = word_at(Field::Hours, 0, pieces.hours)? as u32;
    let day = day_of(pieces.day)?;
    let months = word_at(Field::Month, 0, pieces.months)? as u16;
    let week = week_of(pieces.week)?;
    let years = years_of(pieces.years)?;
    days_checked(CronFields {
        seconds,
        minutes,
        hours,
        day,
        months,
        week,
        years,
    })
}

// What a cron text means, or what is first wrong with it.
#[tactic(auto, unfolding(crate::specs::Reading::reading))]
fn read(text: &str) -> Result<CronFields, CronError>
    ensures { result ≡ reading text.now }
{
    let pieces = pieces_of(text.as_bytes())?;
    fields_of(pieces)
}

/// Reads a cron text, as Quartz's `CronExpression` has them: six or seven fields of seconds, minutes, hours, day of month,
/// month, day of week and, if there is a seventh, year. Letters are read in either case. Of several faults the first one is
/// answered, in the order that `CronError` gives.
pub fn parse(text: &str) -> Result<CronFields, CronError>
    // What is read is what the text means.
    ensures found { IfOk result (λ fields. IsText text.now fields) }
    // What a text means is read.
    ensures only { (fields : CronFields) → IsText text.now fields → result ≡ Ok fields }
    // A fault that is answered is the text's first one.
    ensures fault { IfErr result (λ fault. IsFirstFault text.now fault) }
    // A text's first fault is answered.
    ensures only_fault { (fault : CronError) → IsFirstFault text.now fault → result ≡ Err fault }
    ensures exact { result ≡ reading text.now }
    ensures valid { IfOk result (λ fields. IsTrue (is_cron_fields fields)) }
{
    read(text)
}
