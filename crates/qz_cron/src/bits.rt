//! The next value of a set of bits.
ghost use Rattle.std.specs.Prelude.{◌≡◌, ◌+◌, ◌<◌, ◌≤◌, ◌&&◌, IfSome};
ghost use Rattle.qz_civil.specs.Fields.{has_bit};
ghost use Rattle.qz_civil.specs.Least.{IsFirst};

/// The first value from `from` to before `to` that the set has, each from 0 to 63.
pub fn next_bit(set: u64, from: u64, to: u64) -> Option<u64>
    requires { to ≤ 64 }
    ensures first { IsFirst (has_bit set) from to result }
    ensures bound { IfSome result (λ v. v < to) }
{
    if to <= from {
        return None;
    }
    let rest = set >> from;
    if rest == 0 {
        return None;
    }
    let place = from + u64::from(rest.trailing_zeros());
    if place < to { Some(place) } else { None }
}

/// The same where the part above passes, and none where it doesn't.
pub fn next_bit_if(passes: bool, set: u64, from: u64, to: u64) -> Option<u64>
    requires { to ≤ 64 }
    ensures first { IsFirst (λ v. passes && has_bit set v) from to result }
    ensures bound { IfSome result (λ v. v < to) }
{
    if passes {
        next_bit(set, from, to)
    } else {
        None
    }
}
