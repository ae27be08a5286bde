//! What follows from the definitions of what a node does next, and the number that they cite. Each function does nothing: its contract is the law.
ghost use Rattle.std.specs.Prelude.{◌≡◌, ◌⊎◌, ◌≤ℤ◌, ◌<ℤ◌, ◌+ℤ◌, ℤ, pos, List, true};
ghost use Rattle.std.specs.Int.{int_max};
ghost use Rattle.qz_node.specs.declared.turns.Heard.{Heard as Hears};
ghost use Rattle.qz_node.specs.declared.turns.Want.TheVariants as want;
ghost use Rattle.qz_node.specs.Turns.{TurnData, wanted};
ghost use Rattle.qz_node.specs.TurnRuns.{turn_of, CouldHear, was_fenced, IsDone};

use crate::executing::REFIRE_LIMIT;

/// A node ends only where it was fenced, or where nothing is left to do: whatever it has heard, the latest first, where it wants
/// to end it heard Fenced, or its last Misfires and Acquire were empty, it holds no entry and its time is over.
#[tactic(auto, using(crate::proofs::Ends::ends))]
pub fn ends_only_when_done()
    ensures { (until now : ℤ) (heard : List Hears) → CouldHear until heard → wanted (turn_of until heard) now ≡ want.End
        → (was_fenced heard ≡ true) ⊎ IsDone until now heard }
{}

/// A node acquires only what is due by now, and by the moment up to which it works.
#[tactic(auto, using(crate::proofs::Wants::due))]
pub fn acquires_only_what_is_due()
    ensures { (turn : TurnData) (now no_later : ℤ) → wanted turn now ≡ want.Acquire no_later
        → (no_later ≤ℤ int_max now (pos 0)) × (no_later ≤ℤ int_max turn.until (pos 0)) × (pos 0 ≤ℤ no_later) }
{}

/// A node rests for at least a millisecond and at most a second, and not past the moment up to which it works.
#[tactic(auto, using(crate::proofs::Wants::brief))]
pub fn rests_for_a_second_at_most()
    ensures { (turn : TurnData) (now end : ℤ) → wanted turn now ≡ want.Rest end
        → (now <ℤ end) × (end ≤ℤ (now +ℤ pos 1000)) × (end ≤ℤ turn.until) }
{}

/// The number that definitions cite by name: a job is executed again at most 8 times in one firing.
pub fn refire_limit_is()
    ensures { REFIRE_LIMIT ≡ 8 }
{}
