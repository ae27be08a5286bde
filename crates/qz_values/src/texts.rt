//! Texts and names, both ways. A text is read as it stands in the bytes, so that its memory can be taken last.
ghost use Rattle.std.specs.Prelude.{◌≡◌, ◌≤◌, ℕ, ℤ, length, IsTrue, IfOk, Some, None, option_map, if◌then◌else◌, ◌<◌, ◌^◌, ◌++◌, OnOk};
ghost use Rattle.std.specs.Int.{w16};
ghost use Rattle.std.specs.Str.{is_utf8, IsUtf8};
ghost use Rattle.qz_civil.specs.Timings.{is_name};
ghost use Rattle.qz_values.specs.Fields.{is_long, number_at, checked, text_at, name_at, IsName, number, text};
ghost use Rattle.qz_values.specs.Reading.{Gives};

use crate::faults::Fault;
use crate::numbers::u16_at;
use qz_civil::{NAME_LIMIT, Text, beside};
use std::alloc::{AllocError, Global};

/// The bytes as a text, where they are UTF-8.
#[tactic(auto, using(crate::proofs::Utf8Tests::is_text, crate::proofs::Utf8Tests::is_no_text))]
fn utf8(bytes: &[u8]) -> Option<&str>
    ensures { option_map (λ s. s.now) result ≡ (if is_utf8 bytes.now then Some bytes.now else None) }
{
    match str::from_utf8(bytes) {
        Ok(text) => Some(text),
        Err(_) => None,
    }
}

/// The length of a text of `least` to `most` bytes.
pub(crate) fn length_of(bytes: &[u8], least: u16, most: u16) -> Result<(usize, &[u8]), Fault>
    ensures exact { Gives (λ x. (x.0, x.1.now)) result (checked (is_long least most) (number_at w16) bytes.now) }
    ensures size { IfOk result (λ x. (least ≤ x.0) × (x.0 ≤ most)) }
{
    let (length, rest) = u16_at(bytes)?;
    if length < least || length > most {
        return Err(Fault::at(bytes));
    }
    Ok((length as usize, rest))
}

/// A text of `least` to `most` bytes, as it stands in these bytes: its length in two bytes, then its bytes, which are
/// UTF-8. The length is wrong where it is out of its range, and what follows it where it is cut or not UTF-8.
#[tactic(auto, unfolding(crate::specs::Fields::text_at))]
pub fn str_at(bytes: &[u8], least: u16, most: u16) -> Result<(&str, &[u8]), Fault>
    ensures exact { Gives (λ x. (x.0.now, x.1.now)) result (text_at least most bytes.now) }
    ensures size { IfOk result (λ x. (least ≤ length x.0.now) × (length x.0.now ≤ most)) }
{
    let (length, rest) = length_of(bytes, least, most)?;
    if rest.len() < length {
        return Err(Fault::at(rest));
    }
    let (text, after) = rest.split_at(length);
    match utf8(text) {
        Some(text) => Ok((text, after)),
        None => Err(Fault::at(rest)),
    }
}

/// A name of 1 to `NAME_LIMIT` bytes, as it stands in these bytes.
pub fn name_of(bytes: &[u8]) -> Result<(&str, &[u8]), Fault>
    ensures exact { Gives (λ x. (x.0.now, x.1.now)) result (name_at bytes.now) }
    ensures valid { IfOk result (λ x. IsTrue (is_name x.0.now)) }
{
    str_at(bytes, 1, NAME_LIMIT as u16)
}

/// A name, in memory of its own.
pub fn owned_name_of(alloc: Global, bytes: &[u8]) -> Result<(Text, &[u8]), Fault>
    ensures exact { Gives (λ x. (x.0, x.1.now)) result (name_at bytes.now) }
    ensures valid { IfOk result (λ x. IsTrue (is_name x.0)) }
{
    let (name, rest) = name_of(bytes)?;
    Ok((Text::from_str(alloc, name)?, rest))
}

/// Memory for two texts.
pub fn make_texts(alloc: Global, first: &str, second: &str) -> Result<(Text, Text), AllocError>
    ensures { IfOk result (λ made. (made.0 ≡ first.now) × (made.1 ≡ second.now)) }
{
    let first = Text::from_str(alloc, first)?;
    beside(first, Text::from_str(alloc, second))
}

/// Puts a text: its length in two bytes, then its bytes.
#[tactic(auto, unfolding(crate::specs::Fields::text, crate::specs::Fields::number))]
pub fn put_str(out: &mut Vec<u8>, s: &str) -> Result<(), AllocError>
    requires { length s.now < 2 ^ 16 }
    ensures bytes { OnOk result (out.new.items ≡ out.old.items ++ text s.now) }
    ensures valid { IsUtf8 s.now }
{
    out.extend_from_slice(&(s.len() as u16).to_be_bytes())?;
    out.extend_from_slice(s.as_bytes())
}

/// Puts a name, as a text.
pub fn put_name(out: &mut Vec<u8>, name: &Text) -> Result<(), AllocError>
    requires { IsTrue (is_name name.now) }
    ensures bytes { OnOk result (out.new.items ≡ out.old.items ++ text name.now) }
    ensures valid { IsName name.now }
{
    put_str(out, name.as_str())
}
