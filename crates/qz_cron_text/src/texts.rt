//! A text: fields joined by blanks.
ghost use Rattle.std.specs.Prelude.{◌≡◌, ◌+◌, ◌<◌, ◌≤◌, ◌^◌, length, IfSome, IfOk, IfErr, []};
ghost use Rattle.qz_cron_text.specs.Texts.{fields_at, whole_of};
ghost use Rattle.qz_cron_text.specs.Seen.{listed, shown, AreWithin};

use crate::cuts::cut_at_blank;
use crate::errors::{CronError, u32_of};

/// A field and its place in the text.
#[derive(Clone, Copy)]
pub struct Piece<'a> {
    pub at: usize,
    pub text: &'a [u8],
}

/// A field, and the text after it with its place.
#[derive(Clone, Copy)]
pub struct Found<'a> {
    pub piece: Piece<'a>,
    pub at: usize,
    pub rest: &'a [u8],
}

/// The six or seven fields of a text.
#[derive(Clone, Copy)]
pub struct Pieces<'a> {
    pub seconds: Piece<'a>,
    pub minutes: Piece<'a>,
    pub hours: Piece<'a>,
    pub day: Piece<'a>,
    pub months: Piece<'a>,
    pub week: Piece<'a>,
    pub years: Option<Piece<'a>>,
}

// The first field of a text that begins at the place.
#[tactic(auto, unfolding(crate::specs::Texts::fields_at))]
fn next_field(at: usize, text: &[u8]) -> Option<Found<'_>>
    requires { at + length text.now < 2 ^ 63 }
    ensures fields { listed result ≡ fields_at at text.now }
    ensures place { IfSome result (λ f. f.piece.at + length f.piece.text.now ≤ at + length text.now) }
    ensures rest { IfSome result (λ f. f.at + length f.rest.now ≤ at + length text.now) }
    ensures shorter { IfSome result (λ f. length f.rest.now < length text.now) }
{
    let mut at = at;
    let mut rest = text;
    'blanks: loop {
        let (front, after) = cut_at_blank(rest);
        if front.len() > 0 {
            let piece = Piece { at, text: front };
            let end = at + front.len();
            return match after {
                Some(rest) => Some(Found {
                    piece,
                    at: end + 1,
                    rest,
                }),
                None => Some(Found {
                    piece,
                    at: end,
                    rest: &[],
                }),
            };
        }
        match after {
            Some(more) => {
                rest = more;
                at += 1;
            }
            None => return None,
        }
    }
}

// How many fields the text has.
fn field_count(text: &[u8]) -> usize
    ensures count { result ≡ length (fields_at 0 text.now) }
{
    let mut count = 0;
    let mut at = 0;
    let mut rest = text;
    'fields: loop {
        match next_field(at, rest) {
            None => return count,
            Some(found) => {
                count += 1;
                at = found.at;
                rest = found.rest;
            }
        }
    }
}

// The field at the front, with what is after it, or that the text has another number of fields.
fn wanted(at: usize, text: &[u8], fault: CronError) -> Result<Found<'_>, CronError>
    requires { at + length text.now < 2 ^ 63 }
    ensures ok { IfOk result (λ f. fields_at at text.now ≡ listed (Some f)) }
    ensures err { IfErr result (λ e. (e ≡ fault) × (fields_at at text.now ≡ [])) }
    ensures place { IfOk result (λ f. f.piece.at + length f.piece.text.now ≤ at + length text.now) }
    ensures rest { IfOk result (λ f. f.at + length f.rest.now ≤ at + length text.now) }
{
    match next_field(at, text) {
        Some(found) => Ok(found),
        None => Err(fault),
    }
}

/// The six or seven fields of a text.
#[tactic(auto, unfolding(crate::specs::Texts::whole_of))]
pub fn pieces_of(text: &[u8]) -> Result<Pieces<'_>, CronError>
    ensures value { shown result ≡ whole_of text.now }
    ensures within { IfOk result (λ p. AreWithin (2 ^ 63) p) }
{
    let count = field_count(text);
    let fault = CronError::FieldCount {
        found: u32_of(count),
    };
    let seconds = wanted(0, text, fault)?;
    let minutes = wanted(seconds.at, seconds.rest, fault)?;
    let hours = wanted(minutes.at, minutes.rest, fault)?;
    let day = wanted(hours.at, hours.rest, fault)?;
    let months = wanted(day.at, day.rest, fault)?;
    let week = wanted(months.at, months.rest, fault)?;
    let years = match next_field(week.at, week.rest) {
        None => None,
        Some(years) => match next_field(years.at, years.rest) {
            None => Some(years.piece),
            Some(_) => return Err(fault),
        },
    };
    Ok(Pieces {
        seconds: seconds.piece,
        minutes: minutes.piece,
        hours: hours.piece,
        day: day.piece,
        months: months.piece,
        week: week.piece,
        years,
    })
}
