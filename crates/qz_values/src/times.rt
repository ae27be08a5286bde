//! Times and spans of time, both ways.
ghost use Rattle.std.specs.Prelude.{◌≡◌, ℕ, ℤ, ◌&&◌, IsTrue, IfOk, IfSome, Some, None, ◌++◌, OnOk, FitsSigned, true};
ghost use Rattle.std.specs.Int.{w64};
ghost use Rattle.qz_civil.specs.Timings.{is_within, is_span, is_end};
ghost use Rattle.qz_values.specs.Fields.{integer_at, span_at, optional_at, integer, optional, IsSpan, number};
ghost use Rattle.qz_values.specs.Reading.{Gives};

use crate::faults::Fault;
use crate::numbers::{bool_at, i64_at, put_bool, put_i64};
use qz_civil::LONGEST;
use std::alloc::AllocError;

/// Whether a number lies from `low` to `high`, both included.
pub fn is_between(low: i64, high: i64, number: i64) -> bool
    ensures { result ≡ is_within low high number }
{
    low <= number && number <= high
}

/// A start, an end or a span of time, in ms.
pub fn span_of(bytes: &[u8]) -> Result<(i64, &[u8]), Fault>
    ensures exact { Gives (λ x. (x.0, x.1.now)) result (span_at bytes.now) }
    ensures valid { IfOk result (λ x. IsTrue (is_span x.0)) }
{
    match i64_at(bytes) {
        Ok((span, _)) if !is_between(0, LONGEST, span) => Err(Fault::at(bytes)),
        read => read,
    }
}

pub(crate) fn end_of(bytes: &[u8]) -> Result<(Option<i64>, &[u8]), Fault>
    ensures exact { Gives (λ x. (x.0, x.1.now)) result (optional_at span_at bytes.now) }
    ensures valid { IfOk result (λ x. IsTrue (is_end x.0)) }
{
    let (some, rest) = bool_at(bytes)?;
    if !some {
        return Ok((None, rest));
    }
    let (end, rest) = span_of(rest)?;
    Ok((Some(end), rest))
}

/// A time in ms, which may be any number, where there is one: a flag, then the time.
pub fn time_of(bytes: &[u8]) -> Result<(Option<i64>, &[u8]), Fault>
    ensures { Gives (λ x. (x.0, x.1.now)) result (optional_at (integer_at w64) bytes.now) }
{
    let (some, rest) = bool_at(bytes)?;
    if !some {
        return Ok((None, rest));
    }
    let (time, rest) = i64_at(rest)?;
    Ok((Some(time), rest))
}

#[tactic(auto, using(crate::proofs::Signs::signs))]
pub(crate) fn put_end(out: &mut Vec<u8>, end: &Option<i64>) -> Result<(), AllocError>
    requires { IsTrue (is_end end.now) }
    ensures bytes { OnOk result (out.new.items ≡ out.old.items ++ optional (integer w64) end.now) }
    ensures valid { OnOk result (IfSome end.now IsSpan) }
{
    match end {
        None => put_bool(out, false),
        Some(end) => {
            put_bool(out, true)?;
            put_i64(out, *end)
        }
    }
}

/// Puts a flag, and the time in ms where there is one.
#[tactic(auto, using(crate::proofs::Signs::signs))]
pub fn put_time(out: &mut Vec<u8>, time: &Option<i64>) -> Result<(), AllocError>
    ensures bytes { OnOk result (out.new.items ≡ out.old.items ++ optional (integer w64) time.now) }
    ensures valid { OnOk result (IfSome time.now (FitsSigned w64)) }
{
    match time {
        None => put_bool(out, false),
        Some(time) => {
            put_bool(out, true)?;
            put_i64(out, *time)
        }
    }
}
