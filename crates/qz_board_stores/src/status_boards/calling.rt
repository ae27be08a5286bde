//! What a call does with its board.
ghost use Rattle.std.specs.Prelude.{◌≡◌, ◌+◌, length, Some, IfOk};
ghost use Rattle.qz_board.specs.Boards.{writer_board, reader_board};
ghost use Rattle.qz_board_looks.specs.Looks.{EndWithAll};
ghost use Rattle.qz_board_looks.specs.Watches.{watched_basis};
ghost use Rattle.qz_trigger_store.specs.View.{view};
ghost use Rattle.qz_board_stores.specs.Glances.{at_a_glance, base_of, history_on};
ghost use Rattle.qz_board_stores.specs.StatusBoards.{ShowsUpTo, looks_of, opened_with};

use super::StatusBoard;
use crate::boarded::Boarded;
use crate::subject::TriggerHistories;
use qz_board::{Board, Glance};
use qz_board_looks::Watch;
use qz_civil::ListWithRoom;
use qz_disk::Disk;
use qz_shared_stores::SharedTriggers;
use qz_trigger_store::TriggerStore;
use qz_types::NoMemory;
use std::alloc::Global;
use std::sync::Wait;

impl<R: Wait + Drop> StatusBoard<R> {
    /// A board that shows this store. There will be so many looks at it, and a last one.
    pub fn open<D: Disk>(
        rt: R,
        alloc: Global,
        store: &TriggerStore<D>,
        looks: u32,
    ) -> Result<StatusBoard<R>, NoMemory>
        ensures shows { IfOk result (λ board. ShowsUpTo board (view store.now).history) }
        ensures looks { IfOk result (λ board. looks_of board ≡ looks) }
        ensures opened { IfOk result (λ board. opened_with board ≡ (view store.now).history.entries) }
    {
        let (writer, reader) = Board::new(&rt, alloc, store)?;
        match Watch::new(alloc, reader, looks) {
            Ok(watch) => Ok(StatusBoard { rt, writer, watch }),
            Err(NoMemory) => {
                writer.close(&rt);
                Err(NoMemory)
            }
        }
    }

    /// Lays the store under the board: from now on it posts what it does. What it did meanwhile is posted at once; without
    /// memory the board stays behind. The looks are given beside it, for a thread of their own.
    pub fn lay_under<D: Disk>(
        self,
        store: SharedTriggers<D>,
    ) -> (Boarded<D, R>, Watch<TriggerHistories>)
        requires { ShowsUpTo self (view store.store).history }
        ensures store { result.0.store ≡ store }
        ensures watch { result.1 ≡ self.watch }
        ensures board { reader_board result.1.looks.reader ≡ writer_board result.0.writer }
        ensures basis { watched_basis result.1 ≡ Some (base_of (view store.store).history) }
    {
        let StatusBoard { rt, writer, watch } = self;
        (Boarded::over(rt, store, writer), watch)
    }

    /// Takes the store from under the board.
    pub fn lift<D: Disk>(
        boarded: Boarded<D, R>,
        watch: Watch<TriggerHistories>,
    ) -> (SharedTriggers<D>, StatusBoard<R>)
        requires board { reader_board watch.looks.reader ≡ writer_board boarded.writer }
        requires basis { watched_basis watch ≡ Some (base_of (view boarded.store.store).history) }
        ensures store { result.0 ≡ boarded.store }
        ensures watch { result.1.watch ≡ watch }
        ensures shows { ShowsUpTo result.1 (view boarded.store.store).history }
    {
        let (store, writer, rt) = boarded.into_parts();
        (store, StatusBoard { rt, writer, watch })
    }

    /// Makes the looks that are left, posts what the store has further, looks once more, at all of it, and ends the board.
    /// What was seen is given, look by look. `NoMemory` is answered where the post finds none.
    pub fn finish<D: Disk>(self, store: &TriggerStore<D>) -> Result<ListWithRoom<Glance>, NoMemory>
        requires { ShowsUpTo self (view store.now).history }
        ensures count { IfOk result (λ glances. length glances.items ≡ looks_of self + 1) }
        ensures all { IfOk result (λ glances. ∥ EndWithAll (λ entries. at_a_glance (history_on (base_of (view store.now).history) entries)) (opened_with self) glances.items (view store.now).history.entries ∥₁) }
    {
        let StatusBoard {
            rt,
            mut writer,
            watch,
        } = self;
        let glances = watch.finish(&rt, &mut writer, store);
        writer.close(&rt);
        glances
    }
}
