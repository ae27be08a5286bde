//! A lock row over a trigger store that shows on a board what it does.
ghost use Rattle.std.specs.Prelude.{◌≡◌, ◌^◌, ◌<◌, ◌++◌, [], ◌∷◌, length, true, false, not, Some, IfOk};
ghost use mathlib.Core.List.{IsPrefix};
ghost use Rattle.qz_row_lock.specs.Seats.{IsOf, seen as seen_by, mine, ids, shut, is_out, first_value};
ghost use Rattle.qz_shared.specs.Since.{IsSince};
ghost use Rattle.qz_board.specs.Boards.{posted, offered, writer_basis, writer_board, seen, reader_basis, reader_board};
ghost use Rattle.qz_trigger_store.specs.Entries.{trigger_entry};
ghost use Rattle.qz_trigger_store.specs.View.{view};
ghost use Rattle.qz_shared_stores.specs.Going.{TriggersWentOn};
ghost use Rattle.qz_board_stores.specs.Glances.{base_of};

use crate::boarded::Boarded;
use crate::subject::TriggerHistories;
use qz_board::{BoardReader, BoardWriter};
use qz_disk::Disk;
use qz_shared::{StoreRow, StoreSeat, close_row, open_row};
use qz_shared_stores::SharedTriggers;
use qz_trigger_store::TriggerStore;
use qz_types::NoMemory;
use std::alloc::Global;
use std::sync::Wait;

/// A trigger store that threads share, with a board.
pub type BoardedRow<D, R> = StoreRow<Boarded<D, R>>;

/// A participant's handle to such a store.
pub type BoardedSeat<D, R> = StoreSeat<Boarded<D, R>>;

/// Puts a trigger store under a row, with a board that shows it, and gives the first seat and the board's reader. Without
/// memory the store is given up, and the board's writer is closed.
pub fn open_with_board<D: Disk, R: Wait + Drop>(
    rt: R,
    alloc: Global,
    triggers: TriggerStore<D>,
) -> Result<
    (
        BoardedRow<D, R>,
        BoardedSeat<D, R>,
        BoardReader<TriggerHistories>,
    ),
    NoMemory,
>
    requires { length (view triggers).history.entries < 2 ^ 62 }
    ensures of { IfOk result (λ r. IsOf r.0 r.1 × (is_out r.1 ≡ false)) }
    ensures opened { IfOk result (λ r. ((first_value r.0).opened.value.store.store ≡ triggers) × ((first_value r.0).store.store.store ≡ triggers)) }
    ensures knows { IfOk result (λ r. (seen_by r.1 ≡ (view triggers).history.entries) × (mine r.1 ≡ []) × (ids r.1 ≡ 0 ∷ []) × (shut r.1 ≡ not (view triggers).is_open)) }
    ensures counts { IfOk result (λ r. (r.1.number ≡ 0) × (r.1.more ≡ 4294967295) × (r.1.parts ≡ 4294967296)) }
    ensures reader { IfOk result (λ r. (seen r.2 ≡ (view triggers).history.entries) × (reader_basis r.2 ≡ Some (base_of (view triggers).history))) }
    ensures board { IfOk result (λ r. reader_board r.2 ≡ writer_board (first_value r.0).opened.value.writer) }
{
    let store = SharedTriggers { store: triggers };
    let (boarded, reader) = Boarded::new(rt, alloc, store)?;
    let (row, seat) = open_row(alloc, boarded)?;
    Ok((row, seat, reader))
}

/// Ends the row, and gives the trigger store and the writer of its board. All other seats were joined into this one. What
/// `close_row` of `qz_shared` says of the store holds here too.
pub fn close_with_board<D: Disk, R: Wait + Drop>(
    row: BoardedRow<D, R>,
    seat: BoardedSeat<D, R>,
) -> (TriggerStore<D>, BoardWriter<TriggerHistories>)
    requires of { IsOf row seat }
    requires home { is_out seat ≡ false }
    requires all { seat.parts ≡ 4294967296 }
    ensures begins { IsPrefix (seen_by seat) (view result.0).history.entries }
    ensures mine { (view result.0).history.entries ≡ (view (first_value row).store.store.store).history.entries ++ mine seat }
    ensures since { IsSince trigger_entry (λ h. h.entries) (view (first_value row).opened.value.store.store) (view result.0) }
    ensures shut { shut seat ≡ true → (view result.0).is_open ≡ false }
    ensures went { ∥ TriggersWentOn (first_value row).opened.value.store.store result.0 ∥₁ }
    ensures offered { (offered result.1 ≡ (view result.0).history.entries) × (writer_basis result.1 ≡ Some (base_of (view result.0).history)) }
    ensures posted { IsPrefix (posted result.1) (view result.0).history.entries }
    ensures board { writer_board result.1 ≡ writer_board (first_value row).opened.value.writer }
{
    let boarded = close_row(row, seat);
    let (store, writer, _) = boarded.into_parts();
    let SharedTriggers { store } = store;
    (store, writer)
}
