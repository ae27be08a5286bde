//! The next value that a set of bits lacks.
ghost use Rattle.std.specs.Prelude.{◌<◌, ◌≤◌, IfSome};
ghost use Rattle.qz_civil.specs.Least.{IsFirst};
ghost use Rattle.qz_calendar.specs.Search.{lacks};

use qz_cron::next_bit;

/// The first value from `from` to before `to` that isn't in the set.
pub fn next_lacking(set: u64, from: u64, to: u64) -> Option<u64>
    requires { to ≤ 64 }
    ensures first { IsFirst (lacks set) from to result }
    ensures bound { IfSome result (λ v. v < to) }
{
    next_bit(!set, from, to)
}
