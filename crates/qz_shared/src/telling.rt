//! What one seat did, and another is told of.
ghost use Rattle.std.specs.Prelude.{◌≡◌, ◌++◌, ◌∷◌, [], List, false, IfOk};
ghost use mathlib.Core.List.{IsPrefix};
ghost use Rattle.qz_row_lock.specs.Seats.{IsOf, seen, is_out, first_value};
ghost use Rattle.qz_shared.specs.Calls.{Known, Called, known};

use crate::{RowStore, StoreRow, StoreSeat, submit};
use qz_types::SubmitError;
use std::sync::Wait;

/// One seat has a transaction done and tells another, which then has another one done. This one is answered at a history
/// that begins with all that the first seat had seen, its own entry with it.
pub fn told_first<S: RowStore, R: Wait>(
    rt: &R,
    row: &StoreRow<S>,
    teller: &mut StoreSeat<S>,
    learner: &mut StoreSeat<S>,
    first: S::Entry,
    second: S::Entry,
) -> (Result<S::Reply, SubmitError>, Result<S::Reply, SubmitError>)
    requires of { IsOf row.now teller.old × IsOf row.now learner.old }
    requires home { (is_out teller.old ≡ false) × (is_out learner.old ≡ false) }
    requires proper { S.IsProper first × S.IsProper second }
    requires numbers { (S.seat_of first ≡ teller.old.number) × (S.seat_of second ≡ learner.old.number) }
    ensures of { IsOf row.now teller.new × IsOf row.now learner.new }
    ensures home { (is_out teller.new ≡ false) × (is_out learner.new ≡ false) }
    ensures told { (mid : Known S.Entry) × IsPrefix (seen teller.new) mid.seen × Called S.kind S.listed (S.state (first_value row.now).opened.value) second result.1 mid (known learner.new) }
    ensures has { IfOk result.0 (λ _. (before : List S.Entry) × (seen teller.new ≡ before ++ first ∷ [])) }
{
    let one = submit(rt, row, teller, first);
    let note = row.tell(teller);
    row.learn(learner, note);
    let two = submit(rt, row, learner, second);
    (one, two)
}
