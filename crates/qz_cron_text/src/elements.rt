//! A field: elements joined by commas.
ghost use Rattle.std.specs.Prelude.{◌≡◌, ◌+◌, ◌<◌, ◌≤◌, ◌^◌, length, IfOk, None};
ghost use Rattle.qz_civil.specs.Fields.{size};
ghost use Rattle.qz_cron_text.specs.Forms.{form_fault};
ghost use Rattle.qz_cron_text.specs.Elements.{and_form, elements_of, field_of, IsRight};

use crate::cuts::cut;
use crate::errors::CronError;
use crate::forms::{DayForm, Form, WeekForm, element_of};
use crate::sets::word_of;
use qz_civil::Field;

/// The elements of a field: 64 of their values as bits, and the element that is no run of values.
#[derive(Clone, Copy)]
pub struct Elements {
    pub word: u64,
    pub day: Option<DayForm>,
    pub week: Option<WeekForm>,
}

// The elements so far and one more.
#[tactic(auto, unfolding(crate::specs::Elements::and_form), using(crate::proofs::RunLemmas::run_is_right, std::proofs::lemmas::Nat::or_lt))]
fn and_form(field: Field, from: u16, found: Elements, form: Form) -> Elements
    requires right { form_fault field form ≡ None }
    requires from { from ≤ 1000 }
    ensures value { result ≡ and_form field from found form }
    ensures small { from ≡ 0 → found.word < 2 ^ size field → result.word < 2 ^ size field }
    ensures right { IsRight found → IsRight result }
{
    match form {
        Form::Values(run) => Elements {
            word: found.word | word_of(field, run, from),
            day: found.day,
            week: found.week,
        },
        Form::Day(form) => Elements {
            word: found.word,
            day: Some(form),
            week: found.week,
        },
        Form::Week(form) => Elements {
            word: found.word,
            day: found.day,
            week: Some(form),
        },
    }
}

// The elements of a field that begins at a place of the text.
#[tactic(auto, unfolding(crate::specs::Elements::elements_of))]
fn elements_of(field: Field, from: u16, at: usize, text: &[u8]) -> Result<Elements, CronError>
    requires from { from ≤ 1000 }
    requires at { at + length text.now < 2 ^ 63 }
    ensures value { result ≡ elements_of field from at text.now }
    ensures small { from ≡ 0 → IfOk result (λ found. found.word < 2 ^ size field) }
    ensures right { IfOk result (λ found. IsRight found) }
{
    let mut found = Elements {
        word: 0,
        day: None,
        week: None,
    };
    let mut at = at;
    let mut rest = text;
    'elements: loop {
        let (element, more) = cut(rest, b',');
        let form = element_of(field, at, element)?;
        found = and_form(field, from, found, form);
        match more {
            None => return Ok(found),
            Some(more) => {
                at += element.len() + 1;
                rest = more;
            }
        }
    }
}

/// A field that begins at a place of the text, with 64 of its values from number `from` on. The years are read four times.
#[tactic(auto, unfolding(crate::specs::Elements::field_of))]
pub fn field_of(field: Field, from: u16, at: usize, text: &[u8]) -> Result<Elements, CronError>
    requires from { from ≤ 1000 }
    requires at { at + length text.now < 2 ^ 63 }
    ensures value { result ≡ field_of field from at text.now }
    ensures small { from ≡ 0 → IfOk result (λ found. found.word < 2 ^ size field) }
    ensures right { IfOk result (λ found. IsRight found) }
{
    let found = elements_of(field, from, at, text)?;
    let (_first, more) = cut(text, b',');
    if more.is_some() && (found.day.is_some() || found.week.is_some()) {
        return Err(CronError::NotAlone {
            field: field.number(),
        });
    }
    Ok(found)
}
