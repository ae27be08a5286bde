//! A trigger store under a row that shows on a board what it does.
ghost use Rattle.std.specs.Prelude.{◌≡◌, ◌++◌, length, drop, Some, IfOk};
ghost use mathlib.Core.List.{IsPrefix};
ghost use Rattle.qz_board.specs.Boards.{posted, offered, writer_basis, writer_board, seen, reader_basis, reader_board};
ghost use Rattle.qz_trigger_store.specs.View.{view};
ghost use Rattle.qz_board_stores.specs.Glances.{base_of};

use crate::subject::TriggerHistories;
use qz_board::{Board, BoardReader, BoardWriter};
use qz_disk::Disk;
use qz_rounds::NodeStore;
use qz_shared::RowStore;
use qz_shared_stores::SharedTriggers;
use qz_types::{Entry, NoMemory, Reply, SubmitError};
use std::alloc::Global;
use std::sync::Wait;

/// A trigger store, and the writer of the board on which readers see it. After each call its whole history has been offered
/// to them. It keeps the handle `R`, since a post and the end of the writer wait for a reader that is just looking.
pub struct Boarded<D: Disk, R: Wait + Drop> {
    rt: R,
    store: SharedTriggers<D>,
    writer: BoardWriter<TriggerHistories>,
    ghost told: { offered writer ≡ (view store.store).history.entries },
    ghost based: { writer_basis writer ≡ Some (base_of (view store.store).history) },
    // what was posted begins the history
    ghost begins: { posted writer ++ drop (length (posted writer)) (view store.store).history.entries ≡ (view store.store).history.entries },
}

impl<D: Disk, R: Wait + Drop> Drop for Boarded<D, R> {
    fn drop(self) {
        let Boarded { rt, store, writer } = self;
        writer.close(&rt);
        let_go(store);
    }
}

impl<D: Disk, R: Wait + Drop> Boarded<D, R> {
    /// The store with a board that shows it, and the board's reader. Without memory the store is given up.
    pub(crate) fn new(
        rt: R,
        alloc: Global,
        store: SharedTriggers<D>,
    ) -> Result<(Boarded<D, R>, BoardReader<TriggerHistories>), NoMemory>
        ensures store { IfOk result (λ r. r.0.store ≡ store) }
        ensures board { IfOk result (λ r. reader_board r.1 ≡ writer_board r.0.writer) }
        ensures reader { IfOk result (λ r. (seen r.1 ≡ (view store.store).history.entries) × (reader_basis r.1 ≡ Some (base_of (view store.store).history))) }
    {
        match Board::new(&rt, alloc, &store) {
            Ok((writer, reader)) => Ok((Boarded { rt, store, writer }, reader)),
            Err(NoMemory) => {
                let_go(store);
                Err(NoMemory)
            }
        }
    }

    /// The store under a board that shows an earlier moment of it. What it has further is posted; without memory the board
    /// stays behind.
    pub(crate) fn over(
        rt: R,
        store: SharedTriggers<D>,
        writer: BoardWriter<TriggerHistories>,
    ) -> Boarded<D, R>
        requires begins { IsPrefix (posted writer) (view store.store).history.entries }
        requires goes_on { IsPrefix (offered writer) (view store.store).history.entries }
        requires basis { writer_basis writer ≡ Some (base_of (view store.store).history) }
        ensures store { result.store ≡ store }
        ensures board { writer_board result.writer ≡ writer_board writer }
    {
        let mut writer = writer;
        let _ = writer.post(&rt, &store);
        Boarded { rt, store, writer }
    }

    /// The store, the board's writer, and the handle.
    pub(crate) fn into_parts(self) -> (SharedTriggers<D>, BoardWriter<TriggerHistories>, R)
        ensures { (result.0 ≡ self.store) × (result.1 ≡ self.writer) }
    {
        let Boarded { rt, store, writer } = self;
        (store, writer, rt)
    }
}

// Lets a store go, and its disk.
fn let_go<D: Disk>(store: SharedTriggers<D>) {
    let SharedTriggers { store } = store;
    drop(store.into_disk());
}

/// Each call is answered as the store's own.
impl<D: Disk, R: Wait + Drop> RowStore for Boarded<D, R> {
    type Entry = Entry;

    type Reply = Reply;

    ghost use Rattle.std.specs.Prelude.{⊤};
    ghost use Rattle.std.proofs.Common.{refl};
    ghost use Rattle.qz_model.specs.History.{History};
    ghost use Rattle.qz_trigger_store.specs.Entries.{trigger_entry};
    ghost use Rattle.qz_trigger_store.specs.View.{view};
    ghost use Rattle.qz_shared_stores.specs.Laws.{histories_once};
    ghost use Rattle.qz_board_stores.specs.Boarded.{BoardedWent, boarded_begun};

    ghost History = { History };

    ghost kind = { trigger_entry };

    ghost listed = { λ h. h.entries };

    ghost seat_of = { λ e. e.seat };

    ghost IsProper = { λ e. ⊤ };

    ghost state = { λ s. view s.store.store };

    ghost Went = { BoardedWent };

    ghost histories_once = { histories_once };

    fn history_len(&self) -> u64 {
        self.store.history_len()
    }

    fn closed(&self) -> bool {
        self.store.closed()
    }

    fn submit(&mut self, entry: Entry) -> Result<Reply, SubmitError> {
        match self.store.submit(entry) {
            Ok(reply) => {
                // Without memory the reply stands, and the board stays behind.
                let _ = self.writer.post(&self.rt, &self.store);
                Ok(reply)
            }
            Err(error) => Err(error),
        }
    }

    ghost lists = { λ e h. refl };

    ghost begun = { λ s. boarded_begun (λ disk honest. D.lawful honest disk) s };
}

impl<D: Disk, R: Wait + Drop> NodeStore for Boarded<D, R> {
    ghost use Rattle.std.proofs.Common.{refl, ap};
    ghost use Rattle.qz_model.specs.History.{History, replay};
    ghost use Rattle.qz_seen.specs.Seen.{some_due};
    ghost use Rattle.qz_trigger_store.specs.View.{view};
    ghost use Rattle.qz_shared_stores.specs.Replies.{reply_fits};

    ghost due_by = { λ s. some_due (replay (view s.store.store).history) };

    fn next_due(&self) -> Option<i64> {
        self.store.next_due()
    }

    ghost due_by_history = { λ s t moment same. ap (λ (h : History). some_due (replay h) moment) same };

    ghost is_seat = { λ e. refl };

    ghost all_proper = { λ e. tt };

    ghost replies_fit = { reply_fits };
}
