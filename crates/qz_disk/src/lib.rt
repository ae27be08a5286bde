//! A disk as a store sees it: its content, and what a crash at any moment may leave of it. There are disks in memory
//! for tests, disks that fail by a rule over any other, and disks over an open file of the system or in memory.
#![tactic(auto)]

mod calls;
mod cut;
mod disk;
mod fault;
mod file;
mod handle;
mod images;
mod memory;
mod short;
mod system;

pub use calls::Call;
pub use cut::CutDisk;
pub use disk::Disk;
pub use fault::FaultDisk;
pub use file::FileDisk;
pub use handle::{FileHandle, HandleError};
pub use memory::MemDisk;
pub use short::ShortHandle;
pub use system::SystemFile;

/// Disks in memory are honest, and so are those over them that fail by a rule and files whose calls are cut short.
/// This function holds the proof, and does nothing.
pub fn disks_in_memory_are_honest()
    ensures memory { ⟦<MemDisk as Disk>⟧.honest }
    ensures cut { ⟦<CutDisk<MemDisk> as Disk>⟧.honest }
    ensures fault { ⟦<FaultDisk<MemDisk> as Disk>⟧.honest }
    ensures file { ⟦<FileDisk<ShortHandle<FaultDisk<MemDisk>>> as Disk>⟧.honest }
{}
