//! The fire times of a simple trigger as a set.
ghost use Rattle.std.specs.Prelude.{◌≡◌, IsTrue, Option as Options};
ghost use Rattle.qz_civil.specs.Timings.{is_simple, is_span};

use crate::repeats;
use qz_civil::Times;

/// The fire times of a simple trigger, in ms since 1970-01-01T00:00:00Z.
#[derive(Clone, Copy, Debug)]
pub struct SimpleTimes {
    start: i64,
    end: Option<i64>,
    interval: i64,
    count: i64,
    ghost span: { IsTrue (is_span start) },
    ghost repeats: { IsTrue (is_simple interval count) },
}

impl SimpleTimes {
    /// The fire times from `start` on, every `interval` ms, `count` times more or without end where it is -1, before `end`.
    /// `start` is 0 to `LONGEST`. `interval` is 1 to `LONGEST` and `count` is -1 to 2147483647, or both are 0.
    pub fn new(start: i64, end: Option<i64>, interval: i64, count: i64) -> SimpleTimes
        requires start { IsTrue (is_span start) }
        requires repeats { IsTrue (is_simple interval count) }
        ensures start { result.start ≡ start }
        ensures end { result.end ≡ end }
        ensures interval { result.interval ≡ interval }
        ensures count { result.count ≡ count }
    {
        SimpleTimes {
            start,
            end,
            interval,
            count,
        }
    }
}

impl Times for SimpleTimes {
    ghost use Rattle.qz_simple.specs.Simple.{IsSimple};

    ghost timestamps = { λ s. IsSimple s.start s.end s.interval s.count };

    fn next(&self, after: i64) -> Option<i64> {
        repeats::next(self.start, self.end, self.interval, self.count, after)
    }
}
