//! A trigger store under a row.
use qz_disk::Disk;
use qz_model::due_order_is_sorted;
use qz_rounds::NodeStore;
use qz_shared::RowStore;
use qz_trigger_store::TriggerStore;
use qz_types::{Entry, Reply, SubmitError};

/// A trigger store, as it lies under a row. Its history lists the entries since its base.
#[derive(Drop)]
pub struct SharedTriggers<D: Disk> {
    pub store: TriggerStore<D>,
}

impl<D: Disk> RowStore for SharedTriggers<D> {
    type Entry = Entry;

    type Reply = Reply;

    ghost use Rattle.std.specs.Prelude.{⊤};
    ghost use Rattle.std.proofs.Common.{refl};
    ghost use Rattle.qz_model.specs.History.{History};
    ghost use Rattle.qz_trigger_store.specs.Entries.{trigger_entry};
    ghost use Rattle.qz_trigger_store.specs.View.{view};
    ghost use Rattle.qz_shared_stores.specs.Going.{TriggersWentOn};
    ghost use Rattle.qz_shared_stores.specs.Laws.{histories_once, triggers_begun};

    ghost History = { History };

    ghost kind = { trigger_entry };

    ghost listed = { λ h. h.entries };

    ghost seat_of = { λ e. e.seat };

    ghost IsProper = { λ e. ⊤ };

    ghost state = { λ s. view s.store };

    ghost Went = { λ first now. TriggersWentOn first.store now.store };

    ghost histories_once = { histories_once };

    fn history_len(&self) -> u64 {
        self.store.listed()
    }

    fn closed(&self) -> bool {
        self.store.closed()
    }

    fn submit(&mut self, entry: Entry) -> Result<Reply, SubmitError> {
        self.store.submit(entry)
    }

    ghost lists = { λ e h. refl };

    ghost begun = { λ s. triggers_begun (λ disk honest. D.lawful honest disk) s.store };
}

impl<D: Disk> NodeStore for SharedTriggers<D> {
    ghost use Rattle.std.proofs.Common.{refl, ap};
    ghost use Rattle.qz_model.specs.History.{History, replay};
    ghost use Rattle.qz_seen.specs.Seen.{some_due};
    ghost use Rattle.qz_trigger_store.specs.View.{view};
    ghost use Rattle.qz_shared_stores.specs.Replies.{reply_fits};

    ghost due_by = { λ s. some_due (replay (view s.store).history) };

    fn next_due(&self) -> Option<i64> {
        due_order_is_sorted();
        match self.store.tables().due_first() {
            Some(trigger) => trigger.next,
            None => None,
        }
    }

    ghost due_by_history = { λ s t moment same. ap (λ (h : History). some_due (replay h) moment) same };

    ghost is_seat = { λ e. refl };

    ghost all_proper = { λ e. tt };

    ghost replies_fit = { reply_fits };
}
