//! The next of the even repeats.
ghost use Rattle.std.specs.Prelude.{◌↔◌, IsTrue, negsuc, ◌≤ℤ◌};
ghost use Rattle.qz_civil.specs.Least.{IsNext};
ghost use Rattle.qz_civil.specs.Timings.{is_simple, is_span};
ghost use Rattle.qz_simple.specs.Simple.{IsCounted, IsSimple};

use qz_civil::{LAST, before_end, first_occurrence, to_unsigned};

// Whether the trigger fires that many intervals after its start.
fn is_counted(count: i64, place: u64) -> bool
    requires { negsuc 0 ≤ℤ count }
    ensures { IsTrue result ↔ IsCounted count place }
{
    count < 0 || place <= count as u64
}

/// The least fire time after `after`, up to `LAST`, and `None` where there is none: `start` and `count` more, each
/// `interval` after the one before, or without a last one where `count` is -1, and only those before `end`. All are in
/// ms, and moments since 1970-01-01T00:00:00Z. `start` is 0 to `LONGEST`, and `after` is a timestamp or -1. `interval` is
/// 1 to `LONGEST` and `count` is -1 to 2147483647, or both are 0. No memory.
pub fn next(start: i64, end: Option<i64>, interval: i64, count: i64, after: i64) -> Option<i64>
    requires start { IsTrue (is_span start) }
    requires repeats { IsTrue (is_simple interval count) }
    requires low { negsuc 0 ≤ℤ after }
    requires high { after ≤ℤ LAST }
    ensures { IsNext LAST (IsSimple start end interval count) after result }
{
    match first_occurrence(
        to_unsigned(start),
        to_unsigned(interval),
        to_unsigned(after + 1),
    ) {
        Some(turn) if is_counted(count, turn.place) => before_end(turn.moment, end),
        _ => None,
    }
}
