//! What one element of a field can be.
ghost use Rattle.std.specs.Prelude.{◌≡◌, IfOk, None};
ghost use Rattle.std.specs.Option.{option_map};
ghost use Rattle.qz_cron_text.specs.Cuts.{cut_at};
ghost use Rattle.qz_cron_text.specs.Forms.{is_letter, is_question, is_last_weekday, before_letter, day_form, week_form, special_form, form_of, day_fault, week_fault, form_fault, element_of, last_back_of, nth_of, range_fault};

use crate::cuts::cut;
use crate::errors::{CronError, u32_of};
use crate::runs::{Run, run_fault, run_of};
use crate::values::{number, value};
use qz_civil::Field;

/// What one element is. The second and third name no set of values.
#[derive(Clone, Copy)]
pub enum Form {
    Values(Run),
    Day(DayForm),
    Week(WeekForm),
}

/// A day of the month that the month's length or its weekdays decide.
#[derive(Clone, Copy)]
pub enum DayForm {
    /// `?`.
    Unnamed,
    /// `L-n`, so many days before the last one, and `L` with 0.
    Last(u16),
    /// `LW`.
    LastWeekday,
    /// `aW`.
    Nearest(u16),
}

/// A day of the week that the month decides.
#[derive(Clone, Copy)]
pub enum WeekForm {
    /// `?`.
    Unnamed,
    /// `L`.
    Saturday,
    /// `aL`.
    LastOf(u16),
    /// `a#k`: the weekday and which one of the month.
    Nth(u16, u16),
}

fn is_letter(letter: u8, text: &[u8]) -> bool
    ensures { result ≡ is_letter letter text.now }
{
    match text {
        [b] => b.to_ascii_uppercase() == letter,
        _ => false,
    }
}

fn is_question(text: &[u8]) -> bool
    ensures { result ≡ is_question text.now }
{
    match text {
        [b] => *b == b'?',
        _ => false,
    }
}

fn is_last_weekday(text: &[u8]) -> bool
    ensures { result ≡ is_last_weekday text.now }
{
    match text {
        [a, b] => a.to_ascii_uppercase() == b'L' && b.to_ascii_uppercase() == b'W',
        _ => false,
    }
}

// What is before the letter at the end.
#[tactic(auto, unfolding(crate::specs::Forms::before_letter))]
fn before_letter(letter: u8, text: &[u8]) -> Option<&[u8]>
    ensures { option_map (λ s. s.now) result ≡ before_letter letter text.now }
{
    if text.is_empty() {
        None
    } else if text[text.len() - 1].to_ascii_uppercase() == letter {
        Some(&text[..text.len() - 1])
    } else {
        None
    }
}

// `L-n`.
fn last_back(text: &[u8]) -> Option<DayForm>
    ensures { result ≡ last_back_of (cut_at 45 text.now) }
{
    let (front, back) = cut(text, b'-');
    let back = back?;
    if !is_letter(b'L', front) {
        return None;
    }
    let back = number(back)?;
    Some(DayForm::Last(back))
}

// `?`, `L`, `LW`, `L-n` and `aW`.
#[tactic(auto, unfolding(crate::specs::Forms::day_form))]
fn day_form(text: &[u8]) -> Option<DayForm>
    ensures { result ≡ day_form text.now }
{
    if is_question(text) {
        return Some(DayForm::Unnamed);
    }
    if is_letter(b'L', text) {
        return Some(DayForm::Last(0));
    }
    if is_last_weekday(text) {
        return Some(DayForm::LastWeekday);
    }
    if let Some(form) = last_back(text) {
        return Some(form);
    }
    let day = before_letter(b'W', text)?;
    let day = number(day)?;
    Some(DayForm::Nearest(day))
}

// `a#k`.
fn nth(text: &[u8]) -> Option<WeekForm>
    ensures { result ≡ nth_of (cut_at 35 text.now) }
{
    let (day, nth) = cut(text, b'#');
    let nth = nth?;
    let day = value(Field::DayOfWeek, day)?;
    let nth = number(nth)?;
    Some(WeekForm::Nth(day, nth))
}

// `?`, `L`, `a#k` and `aL`.
#[tactic(auto, unfolding(crate::specs::Forms::week_form))]
fn week_form(text: &[u8]) -> Option<WeekForm>
    ensures { result ≡ week_form text.now }
{
    if is_question(text) {
        return Some(WeekForm::Unnamed);
    }
    if is_letter(b'L', text) {
        return Some(WeekForm::Saturday);
    }
    if let Some(form) = nth(text) {
        return Some(form);
    }
    let day = before_letter(b'L', text)?;
    let day = value(Field::DayOfWeek, day)?;
    Some(WeekForm::LastOf(day))
}

// A form that only the days of the month, or those of the week, have.
fn special_form(field: Field, text: &[u8]) -> Option<Form>
    ensures { result ≡ special_form field text.now }
{
    match field {
        Field::DayOfMonth => Some(Form::Day(day_form(text)?)),
        Field::DayOfWeek => Some(Form::Week(week_form(text)?)),
        _ => None,
    }
}

// The form of an element.
#[tactic(auto, unfolding(crate::specs::Forms::form_of))]
fn form_of(field: Field, text: &[u8]) -> Option<Form>
    ensures { result ≡ form_of field text.now }
{
    if let Some(run) = run_of(field, text) {
        return Some(Form::Values(run));
    }
    special_form(field, text)
}

fn range_fault(field: Field, in_range: bool, value: u16) -> Option<CronError>
    ensures { result ≡ range_fault field in_range value }
{
    if in_range {
        None
    } else {
        Some(CronError::OutOfRange {
            field: field.number(),
            value,
        })
    }
}

#[tactic(auto, unfolding(crate::specs::Forms::day_fault))]
fn day_fault(form: DayForm) -> Option<CronError>
    ensures { result ≡ day_fault form }
{
    let field = Field::DayOfMonth;
    match form {
        DayForm::Unnamed | DayForm::LastWeekday => None,
        DayForm::Last(back) => range_fault(field, back < 31, back),
        DayForm::Nearest(day) => range_fault(field, field.is_value(day), day),
    }
}

#[tactic(auto, unfolding(crate::specs::Forms::week_fault))]
fn week_fault(form: WeekForm) -> Option<CronError>
    ensures { result ≡ week_fault form }
{
    let field = Field::DayOfWeek;
    match form {
        WeekForm::Unnamed | WeekForm::Saturday => None,
        WeekForm::LastOf(day) => range_fault(field, field.is_value(day), day),
        WeekForm::Nth(day, nth) => {
            if field.is_value(day) {
                range_fault(field, 0 < nth && nth < 6, nth)
            } else {
                range_fault(field, false, day)
            }
        }
    }
}

// The first of its numbers that is out of range, or else its step.
fn form_fault(field: Field, form: Form) -> Option<CronError>
    ensures { result ≡ form_fault field form }
{
    match form {
        Form::Values(run) => run_fault(field, run),
        Form::Day(form) => day_fault(form),
        Form::Week(form) => week_fault(form),
    }
}

/// The element at a place of the text, or what is wrong with it.
#[tactic(auto, unfolding(crate::specs::Forms::element_of))]
pub fn element_of(field: Field, at: usize, text: &[u8]) -> Result<Form, CronError>
    ensures value { result ≡ element_of field at text.now }
    ensures right { IfOk result (λ form. form_fault field form ≡ None) }
{
    match form_of(field, text) {
        None => Err(CronError::BadToken {
            field: field.number(),
            at: u32_of(at),
        }),
        Some(form) => match form_fault(field, form) {
            None => Ok(form),
            Some(fault) => Err(fault),
        },
    }
}
