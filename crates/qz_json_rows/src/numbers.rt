//! Sets of days, and times of the day.
ghost use Rattle.std.specs.Prelude.{◌≡◌, ◌++◌, ◌≤◌, ℕ, OnOk};
ghost use Rattle.std.specs.Fmt.{decimal};
ghost use Rattle.qz_json_rows.specs.Numbers as spec;

use crate::json::push_unsigned;
use crate::lists::{Item, push_list};
use crate::members::push_more;
use arrayvec::ArrayVec;
use qz_civil::has_bit;
use std::alloc::AllocError;

/// The number of a day.
impl Item for u8 {
    ghost shown = { λ n. decimal n };

    fn push_item(&self, text: &mut Vec<u8>) -> Result<(), AllocError> {
        push_unsigned(text, u64::from(*self))
    }
}

/// Adds the last two digits of a number.
#[tactic(auto, unfolding(crate::specs::Numbers::two))]
pub(crate) fn push_two(text: &mut Vec<u8>, number: u32) -> Result<(), AllocError>
    ensures { OnOk result (text.new.items ≡ text.old.items ++ spec.two number) }
{
    let tens = (number / 10 % 10) as u8;
    let ones = (number % 10) as u8;
    text.extend_from_slice(&[b'0' + tens, b'0' + ones])
}

// The numbers up to the last one that a set has.
fn numbers_in(set: u32, last: u32) -> ArrayVec<u8, 31>
    requires { last ≤ 31 }
    ensures { result.items ≡ spec.numbers_in set last }
{
    let mut numbers = ArrayVec::new();
    for index in 0..last {
        if has_bit(u64::from(set), index) {
            numbers.push((index + 1) as u8);
        }
    }
    numbers
}

/// Adds the numbers of a set, bit 0 of which is that of number 1.
#[tactic(auto, unfolding(crate::specs::Numbers::set_text))]
pub(crate) fn push_set(text: &mut Vec<u8>, last: u32, set: u32) -> Result<(), AllocError>
    requires { last ≤ 31 }
    ensures { OnOk result (text.new.items ≡ text.old.items ++ spec.set_text last set) }
{
    push_list(text, numbers_in(set, last).as_slice())
}

/// Adds the days of the week, unless they are the usual ones.
#[tactic(auto, unfolding(crate::specs::Numbers::more_days, crate::specs::Json::more))]
pub(crate) fn unusual_days(
    text: &mut Vec<u8>,
    name: &str,
    usual: u8,
    days: u8,
) -> Result<(), AllocError>
    ensures { OnOk result (text.new.items ≡ text.old.items ++ spec.more_days 7 usual name.now days) }
{
    if days == usual {
        return Ok(());
    }
    push_more(text, name)?;
    push_set(text, 7, u32::from(days))
}

/// Adds a second of the day as HH:MM:SS, unless it is the usual one.
#[tactic(auto, unfolding(crate::specs::Numbers::more_clock, crate::specs::Json::more))]
pub(crate) fn unusual_clock(
    text: &mut Vec<u8>,
    name: &str,
    usual: u32,
    second: u32,
) -> Result<(), AllocError>
    ensures { OnOk result (text.new.items ≡ text.old.items ++ spec.more_clock name.now usual second) }
{
    if second == usual {
        return Ok(());
    }
    push_more(text, name)?;
    text.extend_from_slice(b"\"")?;
    push_clock(text, second)?;
    text.extend_from_slice(b"\"")
}

#[tactic(auto, unfolding(crate::specs::Numbers::clock_text))]
fn push_clock(text: &mut Vec<u8>, second: u32) -> Result<(), AllocError>
    ensures { OnOk result (text.new.items ≡ text.old.items ++ spec.clock_text second) }
{
    push_two(text, second / 3600)?;
    text.extend_from_slice(b":")?;
    push_two(text, second / 60 % 60)?;
    text.extend_from_slice(b":")?;
    push_two(text, second % 60)
}
