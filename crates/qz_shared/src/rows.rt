//! A lock row over a store.
ghost use Rattle.std.specs.Prelude.{◌≡◌, ◌^◌, ◌<◌, ◌++◌, [], ◌∷◌, length, true, false, not, IfOk, IsTrue, ◌↔◌};
ghost use mathlib.Core.List.{IsPrefix};
ghost use Rattle.qz_row_lock.specs.Seats.{IsOf, seen, mine, ids, shut, is_out, first_value};
ghost use Rattle.qz_shared.specs.Since.{IsSince};
ghost use Rattle.qz_shared.specs.Calls.{Called, known};

use crate::{Held, RowStore};
use qz_row_lock::{Note, RowLock, Seat};
use qz_types::{NoMemory, SubmitError};
use std::alloc::Global;
use std::sync::Wait;

/// A store that threads share. Its seats are split, joined, told and taught by the lock's own calls.
pub type StoreRow<S> = RowLock<Held<S>>;

/// A participant's handle to such a store.
pub type StoreSeat<S> = Seat<Held<S>>;

/// What a seat has seen, for another to learn.
pub type StoreNote<S> = Note<Held<S>>;

/// Whether the history lists fewer than 2^61 entries, so that the store may go under a row. Each history does whose records
/// fit into a file. Takes no memory.
pub fn is_short<S: RowStore>(store: &S) -> bool
    ensures { IsTrue result ↔ (length (S.listed (S.state store.now).history) < 2 ^ 61) }
{
    store.history_len() < 1 << 61
}

/// Puts a store under a row, and gives the first seat. Without memory the store is given up.
pub fn open_row<S: RowStore>(
    alloc: Global,
    store: S,
) -> Result<(StoreRow<S>, StoreSeat<S>), NoMemory>
    requires { length (S.listed (S.state store).history) < 2 ^ 62 }
    ensures of { IfOk result (λ r. IsOf r.0 r.1 × (is_out r.1 ≡ false)) }
    ensures opened { IfOk result (λ r. ((first_value r.0).opened.value ≡ store) × ((first_value r.0).store ≡ store)) }
    ensures knows { IfOk result (λ r. (seen r.1 ≡ S.listed (S.state store).history) × (mine r.1 ≡ []) × (ids r.1 ≡ 0 ∷ []) × (shut r.1 ≡ not (S.state store).is_open)) }
    ensures counts { IfOk result (λ r. (r.1.number ≡ 0) × (r.1.more ≡ 4294967295) × (r.1.parts ≡ 4294967296)) }
{
    match RowLock::new(alloc, Held::new(store)) {
        Ok(row) => Ok(row),
        Err((_, held)) => {
            drop(held);
            Err(NoMemory)
        }
    }
}

/// Does one transaction of a seat, by any thread. It waits for the row, and has the store to itself from then to the
/// answer, which is the store's own.
pub fn submit<S: RowStore, R: Wait>(
    rt: &R,
    row: &StoreRow<S>,
    seat: &mut StoreSeat<S>,
    entry: S::Entry,
) -> Result<S::Reply, SubmitError>
    requires of { IsOf row.now seat.old }
    requires home { is_out seat.old ≡ false }
    requires proper { S.IsProper entry }
    requires number { S.seat_of entry ≡ seat.old.number }
    ensures of { IsOf row.now seat.new }
    ensures home { is_out seat.new ≡ false }
    ensures same { (seat.new.number ≡ seat.old.number) × (seat.new.more ≡ seat.old.more) × (seat.new.parts ≡ seat.old.parts) × (ids seat.new ≡ ids seat.old) }
    ensures called { Called S.kind S.listed (S.state (first_value row.now).opened.value) entry result (known seat.old) (known seat.new) }
{
    let mut held = row.take(rt, seat);
    let result = held.submit(entry);
    row.give(seat, held);
    result
}

/// Ends the row, and gives its store. All other seats were joined into this one, which so has all entries that were
/// added since the store was put there. What the store's own calls keep is as it was when it was put there.
pub fn close_row<S: RowStore>(row: StoreRow<S>, seat: StoreSeat<S>) -> S
    requires of { IsOf row seat }
    requires home { is_out seat ≡ false }
    requires all { seat.parts ≡ 4294967296 }
    ensures begins { IsPrefix (seen seat) (S.listed (S.state result).history) }
    ensures mine { S.listed (S.state result).history ≡ S.listed (S.state (first_value row).store).history ++ mine seat }
    ensures since { IsSince S.kind S.listed (S.state (first_value row).opened.value) (S.state result) }
    ensures shut { shut seat ≡ true → (S.state result).is_open ≡ false }
    ensures went { ∥ S.Went (first_value row).opened.value result ∥₁ }
{
    let held = row.close(seat);
    held.into_store()
}

// Can be named only for what may be sent to a thread.
fn needs_send<T: Send>() {}

// Can be named only for what threads may share.
fn needs_sync<T: Sync>() {}

/// A law, and no work: a row may be shared by threads, and a row, its seats and its notes may be sent to them, wherever
/// its store may be sent.
pub fn crosses_threads<S: RowStore + Send>() {
    needs_send::<StoreRow<S>>();
    needs_sync::<StoreRow<S>>();
    needs_send::<StoreSeat<S>>();
    needs_send::<StoreNote<S>>();
}
