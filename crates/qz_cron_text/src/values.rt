//! Values: numerals of one to four digits, and names.
ghost use Rattle.std.specs.Prelude.{◌≡◌};
ghost use Rattle.qz_civil.specs.declared.fields.Field.TheVariants as field;
ghost use Rattle.qz_cron_text.specs.Values.{number_of, value_of, name_of, is_spelled};

use qz_civil::Field;

/// The number of one to four digits.
#[tactic(auto, unfolding(crate::specs::Values::number_of))]
pub fn number(text: &[u8]) -> Option<u16>
    ensures { result ≡ number_of text.now }
{
    if text.is_empty() || text.len() > 4 {
        return None;
    }
    let mut number = 0u16;
    for b in text {
        if !b.is_ascii_digit() {
            return None;
        }
        number = number * 10 + (*b - b'0') as u16;
    }
    Some(number)
}

// Whether the text is these three letters, in either case.
fn is_name(text: &[u8], name: [u8; 3]) -> bool
    ensures { result ≡ is_spelled name text.now }
{
    match text {
        [a, b, c] => {
            a.to_ascii_uppercase() == name[0]
                && b.to_ascii_uppercase() == name[1]
                && c.to_ascii_uppercase() == name[2]
        }
        _ => false,
    }
}

// SUN to SAT, from 1.
#[tactic(auto, unfolding(crate::specs::Values::name_of))]
fn weekday(text: &[u8]) -> Option<u16>
    ensures { result ≡ name_of field.DayOfWeek text.now }
{
    if is_name(text, *b"SUN") {
        Some(1)
    } else if is_name(text, *b"MON") {
        Some(2)
    } else if is_name(text, *b"TUE") {
        Some(3)
    } else if is_name(text, *b"WED") {
        Some(4)
    } else if is_name(text, *b"THU") {
        Some(5)
    } else if is_name(text, *b"FRI") {
        Some(6)
    } else if is_name(text, *b"SAT") {
        Some(7)
    } else {
        None
    }
}

// JAN to DEC, from 1.
#[tactic(auto, unfolding(crate::specs::Values::name_of))]
fn month(text: &[u8]) -> Option<u16>
    ensures { result ≡ name_of field.Month text.now }
{
    if is_name(text, *b"JAN") {
        Some(1)
    } else if is_name(text, *b"FEB") {
        Some(2)
    } else if is_name(text, *b"MAR") {
        Some(3)
    } else if is_name(text, *b"APR") {
        Some(4)
    } else if is_name(text, *b"MAY") {
        Some(5)
    } else if is_name(text, *b"JUN") {
        Some(6)
    } else if is_name(text, *b"JUL") {
        Some(7)
    } else if is_name(text, *b"AUG") {
        Some(8)
    } else if is_name(text, *b"SEP") {
        Some(9)
    } else if is_name(text, *b"OCT") {
        Some(10)
    } else if is_name(text, *b"NOV") {
        Some(11)
    } else if is_name(text, *b"DEC") {
        Some(12)
    } else {
        None
    }
}

// The value that is a name of the field.
#[tactic(auto, unfolding(crate::specs::Values::name_of))]
fn named(field: Field, text: &[u8]) -> Option<u16>
    ensures { result ≡ name_of field text.now }
{
    match field {
        Field::Month => month(text),
        Field::DayOfWeek => weekday(text),
        _ => None,
    }
}

/// A numeral or a name of the field.
#[tactic(auto, unfolding(crate::specs::Values::value_of))]
pub fn value(field: Field, text: &[u8]) -> Option<u16>
    ensures { result ≡ value_of field text.now }
{
    if let Some(number) = number(text) {
        return Some(number);
    }
    named(field, text)
}
