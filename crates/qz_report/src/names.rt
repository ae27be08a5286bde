//! Groups, names and keys, as they are printed.
ghost use Rattle.std.specs.Prelude.{◌≡◌, ◌++◌, ◌<◌, ℕ, not, OnOk, string_bytes};
ghost use Rattle.percent_encoding.specs.AsciiSet.{should_percent_encode};
ghost use Rattle.qz_report.specs.Names.{is_plain, escaped, key_text};

use percent_encoding::{AsciiSet, CONTROLS, utf8_percent_encode};
use qz_types::Key;
use std::alloc::AllocError;

/// The bytes of ASCII that are escaped. All others that aren't plain are beyond it.
fn escaped_bytes() -> AsciiSet
    ensures { (b : ℕ) → b < 256 → should_percent_encode result b ≡ not (is_plain b) }
{
    CONTROLS.add(b' ').add(b'/').add(b'%')
}

/// Adds a group, a name, a class or a node. Each byte that isn't plain is added as `%` and two upper-case hexadecimal digits.
pub fn push_name(text: &mut String, name: &str) -> Result<(), AllocError>
    ensures { OnOk result (string_bytes text.new ≡ string_bytes text.old ++ escaped name.now) }
{
    utf8_percent_encode(name, escaped_bytes()).append_to(text)
}

/// Adds a key as GROUP/NAME.
pub fn push_key(text: &mut String, key: &Key) -> Result<(), AllocError>
    ensures { OnOk result (string_bytes text.new ≡ string_bytes text.old ++ key_text key.now) }
{
    push_name(text, key.group.as_str())?;
    text.push('/')?;
    push_name(text, key.name.as_str())
}
