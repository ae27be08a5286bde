//! The calls of the board of a call.
ghost use Rattle.std.specs.Prelude.{◌≡◌, IfOk};
ghost use Rattle.qz_board_stores.specs.StatusBoards.{ShowsUpTo, looks_of, opened_with};
ghost use Rattle.qz_trigger_store.specs.View.{view};

use qz_board_stores::StatusBoard;
use qz_civil::NoMemory;
use qz_disk::Disk;
use qz_trigger_store::TriggerStore;
use std::alloc::Global;
use std::sync::Wait;

/// [`StatusBoard::open`].
pub fn open_board<R: Wait + Drop, D: Disk>(
    rt: R,
    alloc: Global,
    store: &TriggerStore<D>,
    looks: u32,
) -> Result<StatusBoard<R>, NoMemory>
    ensures shows { IfOk result (λ board. ShowsUpTo board (view store.now).history) }
    ensures looks { IfOk result (λ board. looks_of board ≡ looks) }
    ensures opened { IfOk result (λ board. opened_with board ≡ (view store.now).history.entries) }
{
    let count = looks;
    StatusBoard::open(rt, alloc, store, count)
}
