//! Calls on disks, journals, sources, sinks and clocks, once more: edits of them show which wrong answers the contracts
//! of these calls refuse.
#![tactic(auto)]

mod disks;
mod inputs;
mod journals;
mod memory_disks;
mod outputs;
mod slots;

pub use disks::{read_at, restart, sync, write_at};
pub use inputs::{next, now, read};
pub use journals::{append, crash, create, create_version, fits, mount, remount};
pub use memory_disks::{cut_restart, failing_sync, memory_restart, memory_sync};
pub use outputs::{flush, write, write_all};
pub use slots::{clear_slot, mount_tail, remount_tail, set_slot, slot};
