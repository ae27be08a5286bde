//! Two disks of which one waits in a sync for a write of the other.
ghost use Rattle.std.specs.Prelude.{◌≡◌};

use qz_disk::Disk;
use qz_io::Failed;
use std::sync::atomic::{AtomicBool, AtomicU64, Ordering};

/// How often a sync that waits looks for a write.
const TURNS: u64 = 1_000_000_000;

/// What both disks and the clock see of each other.
#[derive(Drop)]
pub struct Seen {
    writes: AtomicU64,
    sync_began: AtomicBool,
    gave_up: AtomicBool,
}

impl Seen {
    pub fn new() -> Seen {
        Seen {
            writes: AtomicU64::new(0),
            sync_began: AtomicBool::new(false),
            gave_up: AtomicBool::new(false),
        }
    }

    pub fn sync_began(&self) -> bool {
        self.sync_began.load(Ordering::SeqCst)
    }

    /// Whether the sync waited, and not in vain.
    pub fn was_met(&self) -> bool {
        self.sync_began() && !self.gave_up.load(Ordering::SeqCst)
    }

    // Waits for a write that comes after this moment.
    fn wait_for_a_write(&self) {
        let before = self.writes.load(Ordering::SeqCst);
        self.sync_began.store(true, Ordering::SeqCst);
        for _ in 0..TURNS {
            if self.writes.load(Ordering::SeqCst) > before {
                return;
            }
        }
        self.gave_up.store(true, Ordering::SeqCst);
    }
}

/// What a disk does beside its work.
#[derive(Clone, Copy)]
pub enum Role {
    /// It tells its writes.
    Tells,
    /// Its sync of this number waits, counted from 1. With 0 none does.
    Waits { at: u32 },
}

/// A disk that tells its writes, or whose sync of some number waits for one of the other.
#[derive(Drop)]
pub struct WatchedDisk<'a, D: Disk> {
    inner: D,
    seen: &'a Seen,
    role: Role,
}

impl<'a, D: Disk> WatchedDisk<'a, D> {
    pub fn new(inner: D, seen: &'a Seen, role: Role) -> WatchedDisk<'a, D> {
        WatchedDisk { inner, seen, role }
    }
}

impl<'a, D: Disk> Disk for WatchedDisk<'a, D> {
    ghost use Rattle.qz_disk.specs.Disk.{untold};

    ghost honest = { ⊥ };

    ghost len = { λ d. D.len d.inner };

    ghost faults = { λ d. D.faults d.inner };

    ghost state = { λ _. untold };

    ghost lawful = { λ h _. absurd h };

    ghost whole = { λ h _. absurd h };

    fn len(&mut self) -> Result<u64, Failed> {
        self.inner.len()
    }

    fn read(&mut self, at: u64, into: &mut [u8]) -> Result<(), Failed> {
        self.inner.read(at, into)
    }

    fn write_at(&mut self, at: u64, from: &[u8]) -> Result<(), Failed> {
        if let Role::Tells = self.role {
            self.seen.writes.fetch_add(1, Ordering::SeqCst);
        }
        self.inner.write_at(at, from)
    }

    fn sync(&mut self) -> Result<(), Failed> {
        if let Role::Waits { at } = self.role {
            if at == 1 {
                self.seen.wait_for_a_write();
            }
            self.role = Role::Waits {
                at: at.saturating_sub(1),
            };
        }
        self.inner.sync()
    }

    fn restart(&mut self) -> Result<(), Failed> {
        self.inner.restart()
    }
}
