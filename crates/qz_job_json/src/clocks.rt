//! Times of the day and sets of days, as triggers and calendars have them.
ghost use Rattle.std.specs.Prelude.{◌≡◌, ◌+◌, ◌<◌, ◌≤◌, ◌^◌, length, IsTrue, IfSome};
ghost use Rattle.serde_json.specs.View.{view, items_view};
ghost use Rattle.qz_civil.specs.Timings.{is_day_set};
ghost use Rattle.qz_job_json.specs.Clocks as spec;

use serde_json::Value;

/// All days of the week: bit 0 is Sunday.
const ALL_DAYS: u8 = 127;

/// The number below the limit that two digits stand for.
pub(crate) fn two_digits(text: &[u8], at: usize, limit: u32) -> Option<u32>
    requires { at + 1 < length text.now }
    ensures value { result ≡ spec.two_digits limit at text.now }
    ensures small { IfSome result (λ n. n < limit) }
{
    let (first, second) = (text[at], text[at + 1]);
    if !first.is_ascii_digit() || !second.is_ascii_digit() {
        return None;
    }
    let number = u32::from(first - b'0') * 10 + u32::from(second - b'0');
    if number < limit { Some(number) } else { None }
}

/// The second of the day that a text HH:MM:SS names.
#[tactic(auto, unfolding(crate::specs::Clocks::second_of_day))]
fn second_of_day(text: &[u8]) -> Option<u32>
    ensures { result ≡ spec.second_of_day text.now }
{
    if text.len() != 8 || text[2] != b':' || text[5] != b':' {
        return None;
    }
    let hour = two_digits(text, 0, 24)?;
    let minute = two_digits(text, 3, 60)?;
    let second = two_digits(text, 6, 60)?;
    Some(hour * 3600 + (minute * 60 + second))
}

/// The second of the day under this name, and the default where there is no such member.
pub(crate) fn second_or(value: &Value, name: &str, default: u32) -> Option<u32>
    ensures { result ≡ spec.second_or default name.now (view value.now) }
{
    match value.get(name) {
        Some(member) => second_of_day(member.as_str()?.as_bytes()),
        None => Some(default),
    }
}

/// The number from 1 to the last one that the value is.
pub(crate) fn number_to(value: &Value, last: u32) -> Option<u32>
    ensures value { result ≡ spec.number_to last (view value.now) }
    ensures low { IfSome result (λ n. 1 ≤ n) }
    ensures high { IfSome result (λ n. n ≤ last) }
{
    let number = value.as_u64()?;
    if 1 <= number && number <= u64::from(last) {
        Some(number as u32)
    } else {
        None
    }
}

/// The set of the numbers of a list, each from 1 to the last one, in any order and however often each. Bit 0 is that of 1.
pub(crate) fn set_to(items: &[Value], last: u32) -> Option<u32>
    requires { last ≤ 31 }
    ensures value { result ≡ spec.set_to last (items_view items.now) }
    ensures small { IfSome result (λ set. set < 2 ^ last) }
{
    let mut set = 0;
    for item in items {
        let number = number_to(item, last)?;
        set |= 1 << (number - 1);
    }
    Some(set)
}

/// The set of the days of a list. An empty list is none.
#[tactic(auto, unfolding(crate::specs::Clocks::days_of))]
fn days_of(items: &[Value]) -> Option<u8>
    ensures value { result ≡ spec.days_of (items_view items.now) }
    ensures valid { IfSome result (λ set. IsTrue (is_day_set set)) }
{
    let set = set_to(items, 7)?;
    if set != 0 { Some(set as u8) } else { None }
}

/// The set of the days of the member `days`, and all days where there is none.
pub(crate) fn days_at(value: &Value) -> Option<u8>
    ensures value { result ≡ spec.days_at (view value.now) }
    ensures valid { IfSome result (λ set. IsTrue (is_day_set set)) }
{
    match value.get("days") {
        Some(member) => days_of(member.as_array()?.as_slice()),
        None => Some(ALL_DAYS),
    }
}
