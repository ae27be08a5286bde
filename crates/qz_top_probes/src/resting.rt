//! The checkpoint after nodes' work.
ghost use Rattle.std.specs.Prelude.{◌≡◌, true};
ghost use Rattle.qz_trigger_store.specs.View.{view};
ghost use Rattle.qz_top.specs.Resting.{RestsNodes, HasFewBehind};

use qz_disk::Disk;
use qz_top::{Status, rest_nodes};
use qz_trigger_store::TriggerStore;

/// Makes a checkpoint where one is due.
pub fn rest<D: Disk>(triggers: &mut TriggerStore<D>, status: Status) -> Status
    ensures rests { RestsNodes status result (view triggers.old) (view triggers.new) }
    ensures few { result ≡ Status.Ok → (view triggers.new).is_open ≡ true → HasFewBehind triggers.new }
{
    rest_nodes(triggers, status)
}
