//! How much a call may ask for, and how long a number may be.
ghost use Rattle.std.specs.Prelude.{◌≡◌};

use crate::numbers::DIGITS;
use crate::running::{BUDGET_LIMIT, DAY_LIMIT, JOB_LIMIT, NODE_LIMIT, USUAL_BUDGET};
use crate::serves::LOOK_LIMIT;
use crate::wishes::COUNT_LIMIT;

/// The limits are these numbers. It does nothing: its contract says so, so that no edit of a constant goes unseen.
pub fn limits_are()
    ensures count { COUNT_LIMIT ≡ 1000 }
    ensures digits { DIGITS ≡ 19 }
    ensures nodes { NODE_LIMIT ≡ 16 }
    ensures looks { LOOK_LIMIT ≡ 1000 }
    ensures budgets { (BUDGET_LIMIT ≡ 1000000) × (USUAL_BUDGET ≡ 100000) }
    ensures made { (JOB_LIMIT ≡ 1000) × (DAY_LIMIT ≡ 28) }
{}
