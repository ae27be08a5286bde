//! Laws on calls one after another, each as the contract of a function that does nothing.
ghost use Rattle.std.specs.Prelude.{List, ℕ, ◌≡◌, ◌∷◌, []};
ghost use Rattle.std.specs.List.{AllByRecursion};
ghost use Rattle.qz_journal.specs.declared.layout.TheConstants.{TRIGGERS, STATES};
ghost use Rattle.qz_trigger_store.specs.Bytes.{Whole, list_of};
ghost use Rattle.qz_checkin.specs.Bytes.{Whole as WholeRows, list_of as rows_list_of};
ghost use Rattle.qz_top.specs.declared.checkpoints.TheConstants.{CHECKPOINT_AFTER};
ghost use Rattle.qz_top.specs.InTurn.{Call, HasHeadline, BeginsWith, Keeps, InTurn};
ghost use Rattle.qz_top.specs.Making.{IsNew};
ghost use Rattle.qz_top.specs.Standing.{HoldLonger, HoldLongerRows};

use qz_disk::Disk;

/// Any number of calls may follow one another on the same two disks, which are honest and which nobody else writes. Each is handed what the call before
/// it left there: at its end, or at any moment at which it was cut off. Then no call loses anything that an earlier one found: what a
/// crash leaves at any moment of any of them holds whole lists that begin with those of before the first. It does nothing: its
/// contract says so.
pub fn calls_keep_histories<D: Disk>()
    ensures { D.honest → (w : Whole) (v : WholeRows) (c : Call D.Disk) (calls : List (Call D.Disk)) → BeginsWith w v c → AllByRecursion HasHeadline (c ∷ calls) → InTurn c calls
        → AllByRecursion (Keeps w v) (c ∷ calls) }
{}

/// A store that `init` made holds the empty list, and a crash leaves nothing else: so the first call may come. It does nothing: its
/// contract says so.
pub fn new_stores_hold_empty_lists<D: Disk>()
    ensures triggers { (old new : D) → IsNew TRIGGERS (D.state old) (D.state new) → (b : List ℕ) → (D.state new).IsImage b → HoldLonger (list_of 2 []) b }
    ensures states { (old new : D) → IsNew STATES (D.state old) (D.state new) → (b : List ℕ) → (D.state new).IsImage b → HoldLongerRows (rows_list_of 2 []) b }
{}

/// So many entries after the last snapshot make a checkpoint due at the end of a call. It does nothing: its contract says so.
pub fn a_checkpoint_is_due_after()
    ensures { CHECKPOINT_AFTER ≡ 4096 }
{}
