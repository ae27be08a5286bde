//! Texts and numbers.
ghost use Rattle.std.specs.Prelude.{◌≡◌, ◌++◌, ◌<◌, OnOk};
ghost use Rattle.std.specs.Fmt.{decimal, signed_decimal};
ghost use Rattle.std.specs.List.{flat_map};
ghost use Rattle.qz_json_rows.specs.Json as spec;

use itoa::Buffer;
use std::alloc::AllocError;

/// Adds a text between quotation marks. `"` and `\` have a backslash before them, a byte below 20 (hexadecimal) is `\u00` and two
/// upper-case digits, and every other byte stands for itself.
pub fn push_text(text: &mut Vec<u8>, value: &str) -> Result<(), AllocError>
    ensures { OnOk result (text.new.items ≡ text.old.items ++ spec.quoted value.now) }
{
    push_bytes(text, value.as_bytes())
}

/// The same of a text that is given as its bytes.
#[tactic(auto, unfolding(crate::specs::Json::quoted))]
pub fn push_bytes(text: &mut Vec<u8>, value: &[u8]) -> Result<(), AllocError>
    ensures { OnOk result (text.new.items ≡ text.old.items ++ spec.quoted value.now) }
{
    text.extend_from_slice(b"\"")?;
    push_escaped(text, value)?;
    text.extend_from_slice(b"\"")
}

fn push_escaped(text: &mut Vec<u8>, bytes: &[u8]) -> Result<(), AllocError>
    ensures { OnOk result (text.new.items ≡ text.old.items ++ flat_map spec.escaped_byte bytes.now) }
{
    for byte in bytes {
        push_byte(text, *byte)?;
    }
    Ok(())
}

fn push_byte(text: &mut Vec<u8>, byte: u8) -> Result<(), AllocError>
    ensures { OnOk result (text.new.items ≡ text.old.items ++ spec.escaped_byte byte) }
{
    if byte == b'"' || byte == b'\\' {
        text.extend_from_slice(&[b'\\', byte])
    } else if byte < 32 {
        let digits = [
            b'\\',
            b'u',
            b'0',
            b'0',
            digit16(byte / 16),
            digit16(byte % 16),
        ];
        text.extend_from_slice(&digits)
    } else {
        text.extend_from_slice(&[byte])
    }
}

fn digit16(number: u8) -> u8
    requires { number < 16 }
    ensures { result ≡ spec.digit16 number }
{
    if number < 10 {
        b'0' + number
    } else {
        b'A' - 10 + number
    }
}

/// Adds a word in which nothing is escaped, between quotation marks.
pub(crate) fn push_plain(text: &mut Vec<u8>, word: &[u8]) -> Result<(), AllocError>
    ensures { OnOk result (text.new.items ≡ text.old.items ++ spec.plain word.now) }
{
    text.extend_from_slice(b"\"")?;
    text.extend_from_slice(word)?;
    text.extend_from_slice(b"\"")
}

/// Adds a number.
pub fn push_number(text: &mut Vec<u8>, number: i64) -> Result<(), AllocError>
    ensures { OnOk result (text.new.items ≡ text.old.items ++ signed_decimal number) }
{
    let mut buffer = Buffer::new();
    text.extend_from_slice(buffer.format(number).as_bytes())
}

/// Adds a number without a sign.
pub fn push_unsigned(text: &mut Vec<u8>, number: u64) -> Result<(), AllocError>
    ensures { OnOk result (text.new.items ≡ text.old.items ++ decimal number) }
{
    let mut buffer = Buffer::new();
    text.extend_from_slice(buffer.format(number).as_bytes())
}
