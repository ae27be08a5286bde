//! How full the store is.
ghost use Rattle.std.specs.Prelude.{◌≡◌};
ghost use Rattle.qz_trigger_store.specs.View.{view};

use crate::TriggerStore;
use qz_disk::Disk;

impl<D: Disk> TriggerStore<D> {
    /// The offset, in bytes, of the closed gate: the bytes that stand before it, the header counted.
    pub fn gate(&self) -> u64
        ensures { result ≡ (view self.now).gate }
    {
        self.store.gate()
    }

    /// How many payloads stand before the gate.
    pub fn payloads(&self) -> u64
        ensures { result ≡ (view self.now).payloads }
    {
        self.store.payloads()
    }
}
