//! What a cluster shows of its stores.
ghost use Rattle.std.specs.Prelude.{◌≡◌};
ghost use Rattle.qz_model.specs.History.{replay};
ghost use Rattle.qz_checkin.specs.History.{replay_states};
ghost use Rattle.qz_cluster.specs.View.{view};

use crate::Cluster;
use qz_disk::Disk;
use qz_tables::Tables;
use qz_types::StateRow;

impl<D: Disk> Cluster<D> {
    /// The tables that the history of the trigger store leaves.
    pub fn tables(&self) -> &Tables
        ensures { result.now.tables ≡ replay (view self.now).triggers.history }
    {
        self.triggers.tables()
    }

    /// The rows that the history of the state store leaves, in the order of the nodes' names.
    pub fn rows(&self) -> &[StateRow]
        ensures { result.now ≡ (replay_states (view self.now).states.history).rows }
    {
        self.states.rows()
    }
}
