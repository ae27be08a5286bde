//! What follows from the laws of a run, and its numbers. Each function does nothing: its contract is the law.
ghost use Rattle.std.specs.Prelude.{◌≡◌, List, ℕ, pos};
ghost use Rattle.qz_node.specs.Jobs.{JobMeaning};
ghost use Rattle.qz_run.specs.Stores.{Event};
ghost use Rattle.qz_run.specs.Laws.{Ran};
ghost use Rattle.qz_run.specs.JobLaw.{Grows, asked, told};

use crate::stores::{CHECK_IN_INTERVAL, NODES, ROOM};

/// The first job of a class, where it tells its calls, tells those of the Completes of its class, in order and with their codes.
#[tactic(auto, using(crate::proofs::Telling::tells))]
pub fn jobs_tell_their_calls()
    ensures { (class : List ℕ) (log : List Event) (before after : List JobMeaning) → Ran log before after → Grows (asked class log) (told class before) (told class after) }
{}

/// The numbers that definitions of a run cite by name: 16 nodes at most, 8388608 entries, and a check-in interval of 15000 ms.
pub fn run_numbers_are()
    ensures nodes { NODES ≡ 16 }
    ensures room { ROOM ≡ 8388608 }
    ensures interval { CHECK_IN_INTERVAL ≡ pos 15000 }
{}
