//! What a board over a trigger store is about, and the values that it can show.
ghost use Rattle.std.specs.Prelude.{◌≡◌};

use crate::glances::glance_of;
use qz_board::{Glance, Shown, Subject};
use qz_disk::Disk;
use qz_shared_stores::SharedTriggers;
use qz_tables::Tables;
use qz_trigger_store::TriggerStore;
use qz_types::Entry;
use std::marker::Model;

/// What the history of a trigger store begins with. It exists in proofs alone: no value of it is made.
pub struct Base {
    // how many entries came before those that the history lists
    count: u64,
    // the tables that they left
    tables: Tables,
}

impl Model for Base {
    ghost use Rattle.qz_board_stores.specs.Glances.{Base as BaseData};

    ghost Value = { BaseData };

    ghost view = { λ b. record { count = b.count; tables = b.tables.tables } };
}

/// The histories of trigger stores, as the subject of a board. No value of it is made.
pub struct TriggerHistories;

impl Subject for TriggerHistories {
    type Entry = Entry;

    type Ground = Base;

    ghost use Rattle.std.proofs.Common.{refl};
    ghost use Rattle.qz_board_stores.specs.Glances.{history_on, at_a_glance};

    ghost before = { λ b. b.count };

    ghost glance_of = { λ b entries. at_a_glance (history_on b entries) };

    ghost counted = { λ b entries. refl };
}

impl<D: Disk> Shown<TriggerHistories> for TriggerStore<D> {
    ghost use Rattle.qz_trigger_store.specs.View.{view};
    ghost use Rattle.qz_board_stores.specs.Glances.{base_of};

    ghost history = { λ s. (view s).history.entries };

    ghost basis = { λ s. base_of (view s).history };

    fn glance(&self) -> Glance {
        glance_of(self.history_len(), self.tables())
    }
}

impl<D: Disk> Shown<TriggerHistories> for SharedTriggers<D> {
    ghost use Rattle.qz_trigger_store.specs.View.{view};
    ghost use Rattle.qz_board_stores.specs.Glances.{base_of};

    ghost history = { λ s. (view s.store).history.entries };

    ghost basis = { λ s. base_of (view s.store).history };

    fn glance(&self) -> Glance {
        self.store.glance()
    }
}
