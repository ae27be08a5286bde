//! Members of objects. Those that have their usual values are left out.
ghost use Rattle.std.specs.Prelude.{◌≡◌, ◌++◌, ◌∷◌, [], OnOk};
ghost use Rattle.std.specs.Fmt.{decimal, signed_decimal};
ghost use Rattle.qz_json_rows.specs.Json as spec;

use crate::json::{push_number, push_plain, push_text, push_unsigned};
use qz_types::Text;
use std::alloc::AllocError;

/// Adds a member's name and a colon: the first one of an object.
#[tactic(auto, unfolding(crate::specs::Json::label))]
pub fn push_label(text: &mut Vec<u8>, name: &str) -> Result<(), AllocError>
    ensures { OnOk result (text.new.items ≡ text.old.items ++ spec.label name.now) }
{
    text.extend_from_slice(b"\"")?;
    text.extend_from_slice(name.as_bytes())?;
    text.extend_from_slice(b"\":")
}

/// Adds a comma, and the name of a further member with its colon.
pub fn push_more(text: &mut Vec<u8>, name: &str) -> Result<(), AllocError>
    ensures { OnOk result (text.new.items ≡ text.old.items ++ 44 ∷ spec.label name.now) }
{
    text.extend_from_slice(b",")?;
    push_label(text, name)
}

/// Adds a text under this name.
#[tactic(auto, unfolding(crate::specs::Json::more))]
pub(crate) fn more(text: &mut Vec<u8>, name: &str, value: &str) -> Result<(), AllocError>
    ensures { OnOk result (text.new.items ≡ text.old.items ++ spec.more name.now (spec.quoted value.now)) }
{
    push_more(text, name)?;
    push_text(text, value)
}

/// Adds a word in which nothing is escaped.
#[tactic(auto, unfolding(crate::specs::Json::more))]
pub(crate) fn more_plain(text: &mut Vec<u8>, name: &str, word: &[u8]) -> Result<(), AllocError>
    ensures { OnOk result (text.new.items ≡ text.old.items ++ spec.more name.now (spec.plain word.now)) }
{
    push_more(text, name)?;
    push_plain(text, word)
}

/// Adds a number.
#[tactic(auto, unfolding(crate::specs::Json::more))]
pub(crate) fn more_number(text: &mut Vec<u8>, name: &str, number: i64) -> Result<(), AllocError>
    ensures { OnOk result (text.new.items ≡ text.old.items ++ spec.more name.now (signed_decimal number)) }
{
    push_more(text, name)?;
    push_number(text, number)
}

/// Adds a number without a sign.
#[tactic(auto, unfolding(crate::specs::Json::more))]
pub(crate) fn more_unsigned(text: &mut Vec<u8>, name: &str, number: u64) -> Result<(), AllocError>
    ensures { OnOk result (text.new.items ≡ text.old.items ++ spec.more name.now (decimal number)) }
{
    push_more(text, name)?;
    push_unsigned(text, number)
}

/// Adds a text, unless it is the usual one.
#[tactic(auto, unfolding(crate::specs::Json::more_text))]
pub(crate) fn unusual_text(
    text: &mut Vec<u8>,
    name: &str,
    usual: &str,
    value: &str,
) -> Result<(), AllocError>
    ensures { OnOk result (text.new.items ≡ text.old.items ++ spec.more_text name.now usual.now value.now) }
{
    if value == usual {
        return Ok(());
    }
    more(text, name, value)
}

/// Adds a number, unless it is the usual one.
#[tactic(auto, unfolding(crate::specs::Json::more_number))]
pub(crate) fn unusual_number(
    text: &mut Vec<u8>,
    name: &str,
    usual: i64,
    number: i64,
) -> Result<(), AllocError>
    ensures { OnOk result (text.new.items ≡ text.old.items ++ spec.more_number name.now usual number) }
{
    if number == usual {
        return Ok(());
    }
    more_number(text, name, number)
}

/// Adds a flag that is usually false.
#[tactic(auto, unfolding(crate::specs::Json::more_set, crate::specs::Json::more))]
pub(crate) fn more_set(text: &mut Vec<u8>, name: &str, flag: bool) -> Result<(), AllocError>
    ensures { OnOk result (text.new.items ≡ text.old.items ++ spec.more_set name.now flag) }
{
    if !flag {
        return Ok(());
    }
    push_more(text, name)?;
    text.extend_from_slice(b"true")
}

/// Adds a flag that is usually true.
#[tactic(auto, unfolding(crate::specs::Json::more_unset, crate::specs::Json::more))]
pub(crate) fn more_unset(text: &mut Vec<u8>, name: &str, flag: bool) -> Result<(), AllocError>
    ensures { OnOk result (text.new.items ≡ text.old.items ++ spec.more_unset name.now flag) }
{
    if flag {
        return Ok(());
    }
    push_more(text, name)?;
    text.extend_from_slice(b"false")
}

/// Adds a text, if there is one.
#[tactic(auto, unfolding(crate::specs::Json::more_named))]
pub(crate) fn more_named(
    text: &mut Vec<u8>,
    name: &str,
    value: &Option<Text>,
) -> Result<(), AllocError>
    ensures { OnOk result (text.new.items ≡ text.old.items ++ spec.more_named name.now value.now) }
{
    match value {
        Some(value) => more(text, name, value.as_str()),
        None => Ok(()),
    }
}

/// Adds a time in ms since 1970-01-01T00:00:00Z, if there is one.
#[tactic(auto, unfolding(crate::specs::Json::more_timed))]
pub(crate) fn more_timed(
    text: &mut Vec<u8>,
    name: &str,
    time: Option<i64>,
) -> Result<(), AllocError>
    ensures { OnOk result (text.new.items ≡ text.old.items ++ spec.more_timed name.now time) }
{
    match time {
        Some(time) => more_number(text, name, time),
        None => Ok(()),
    }
}
