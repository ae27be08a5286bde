//! Calls of a store under a row, once more: edits of them show which wrong answers the contracts of these calls refuse.
#![tactic(auto)]

ghost use Rattle.std.specs.Prelude.{◌≡◌, ◌≤◌, ◌++◌, ◌∷◌, [], List, true, false, IfOk};
ghost use mathlib.Core.List.{IsPrefix};
ghost use Rattle.qz_row_lock.specs.Seats.{IsOf, seen, ids, shut, is_out, first_value};
ghost use Rattle.qz_shared.specs.Since.{IsSince};
ghost use Rattle.qz_shared.specs.Calls.{Known, Called, known};

use qz_shared::{RowStore, StoreRow, StoreSeat};
use qz_types::SubmitError;
use std::sync::Wait;

/// [`qz_shared::submit`].
pub fn submit<S: RowStore, R: Wait>(
    rt: &R,
    row: &StoreRow<S>,
    seat: &mut StoreSeat<S>,
    entry: S::Entry,
) -> Result<S::Reply, SubmitError>
    requires of { IsOf row.now seat.old }
    requires home { is_out seat.old ≡ false }
    requires proper { S.IsProper entry }
    requires number { S.seat_of entry ≡ seat.old.number }
    ensures of { IsOf row.now seat.new }
    ensures home { is_out seat.new ≡ false }
    ensures same { (seat.new.number ≡ seat.old.number) × (seat.new.more ≡ seat.old.more) × (seat.new.parts ≡ seat.old.parts) × (ids seat.new ≡ ids seat.old) }
    ensures called { Called S.kind S.listed (S.state (first_value row.now).opened.value) entry result (known seat.old) (known seat.new) }
{
    match qz_shared::submit(rt, row, seat, entry) {
        Ok(reply) => Ok(reply),
        Err(error) => Err(error),
    }
}

/// [`qz_shared::told_first`], by its parts.
pub fn told_first<S: RowStore, R: Wait>(
    rt: &R,
    row: &StoreRow<S>,
    teller: &mut StoreSeat<S>,
    learner: &mut StoreSeat<S>,
    first: S::Entry,
    second: S::Entry,
) -> (Result<S::Reply, SubmitError>, Result<S::Reply, SubmitError>)
    requires of { IsOf row.now teller.old × IsOf row.now learner.old }
    requires home { (is_out teller.old ≡ false) × (is_out learner.old ≡ false) }
    requires proper { S.IsProper first × S.IsProper second }
    requires numbers { (S.seat_of first ≡ teller.old.number) × (S.seat_of second ≡ learner.old.number) }
    ensures of { IsOf row.now teller.new × IsOf row.now learner.new }
    ensures home { (is_out teller.new ≡ false) × (is_out learner.new ≡ false) }
    ensures told { (mid : Known S.Entry) × IsPrefix (seen teller.new) mid.seen × Called S.kind S.listed (S.state (first_value row.now).opened.value) second result.1 mid (known learner.new) }
    ensures has { IfOk result.0 (λ _. (before : List S.Entry) × (seen teller.new ≡ before ++ first ∷ [])) }
{
    let one = qz_shared::submit(rt, row, teller, first);
    let note = row.tell(teller);
    row.learn(learner, note);
    let two = qz_shared::submit(rt, row, learner, second);
    (one, two)
}

/// [`qz_shared::close_row`], once a seat that was split off is joined again.
pub fn close_joined<S: RowStore>(row: StoreRow<S>, seat: StoreSeat<S>) -> S
    requires of { IsOf row seat }
    requires home { is_out seat ≡ false }
    requires all { seat.parts ≡ 4294967296 }
    requires more { 1 ≤ seat.more }
    ensures begins { IsPrefix (seen seat) (S.listed (S.state result).history) }
    ensures since { IsSince S.kind S.listed (S.state (first_value row).opened.value) (S.state result) }
    ensures shut { shut seat ≡ true → (S.state result).is_open ≡ false }
    ensures went { ∥ S.Went (first_value row).opened.value result ∥₁ }
{
    let (one, two) = row.split(seat);
    let seat = row.join(one, two);
    qz_shared::close_row(row, seat)
}
