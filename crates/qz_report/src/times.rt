//! Lines of fire times.
ghost use Rattle.std.specs.Prelude.{◌≡◌, ◌++◌, IfOk, OnOk, string_bytes};
ghost use Rattle.std.specs.List.{flat_map};
ghost use Rattle.qz_report.specs.Times.{time_text, all_times_text, times_text};

use crate::names::push_key;
use qz_types::{Key, NoMemory, Text};
use std::alloc::{AllocError, Global};
use std::fmt::Write;

/// Room for the key and a few times, so that short lines take memory once.
const USUAL_LENGTH: usize = 128;

/// The line `times KEY` with the fire times of the trigger of this key, in ms since 1970-01-01T00:00:00Z and in their
/// order, or with `none`; its line feed is at the end.
pub fn times_line(alloc: Global, key: &Key, times: &[i64]) -> Result<Text, NoMemory>
    ensures { IfOk result (λ text. text ≡ times_text key.now times.now) }
{
    let mut text = String::with_capacity(alloc, USUAL_LENGTH)?;
    text.push_str("times ")?;
    push_key(&mut text, key)?;
    push_all_times(&mut text, times)?;
    text.push('\n')?;
    Ok(Text::from_string(text))
}

fn push_all_times(text: &mut String, times: &[i64]) -> Result<(), AllocError>
    ensures { OnOk result (string_bytes text.new ≡ string_bytes text.old ++ all_times_text times.now) }
{
    if times.is_empty() {
        text.push_str(" none")
    } else {
        push_each_time(text, times)
    }
}

fn push_each_time(text: &mut String, times: &[i64]) -> Result<(), AllocError>
    ensures { OnOk result (string_bytes text.new ≡ string_bytes text.old ++ flat_map time_text times.now) }
{
    for time in times {
        push_time(text, *time)?;
    }
    Ok(())
}

fn push_time(text: &mut String, time: i64) -> Result<(), AllocError>
    ensures { OnOk result (string_bytes text.new ≡ string_bytes text.old ++ time_text time) }
{
    write!(text, " {time}")
}
