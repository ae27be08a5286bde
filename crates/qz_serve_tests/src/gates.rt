//! Gates that hold an execution until something else was done.
use crate::clocks::CountingClock;
use qz_serve::Gate;
use std::sync::Wait;
use std::sync::atomic::{AtomicBool, AtomicU64, Ordering};

/// How often an execution that is held sees whether it may go on.
const TURNS: u64 = 1_000_000_000;

/// Holds each execution until two have begun, for so many looks at most.
#[derive(Drop)]
pub struct TwoAtOnce {
    begun: AtomicU64,
    gave_up: AtomicBool,
}

impl TwoAtOnce {
    pub fn new() -> TwoAtOnce {
        TwoAtOnce {
            begun: AtomicU64::new(0),
            gave_up: AtomicBool::new(false),
        }
    }

    /// Whether no execution waited in vain.
    pub fn was_met(&self) -> bool {
        self.begun.load(Ordering::SeqCst) >= 2 && !self.gave_up.load(Ordering::SeqCst)
    }
}

impl Gate for TwoAtOnce {
    fn before<R: Wait>(&self, _rt: &R, _node: u32, _entry: u64) {
        self.begun.fetch_add(1, Ordering::SeqCst);
        for _ in 0..TURNS {
            if self.begun.load(Ordering::SeqCst) >= 2 {
                return;
            }
        }
        self.gave_up.store(true, Ordering::SeqCst);
    }

    fn after<R: Wait>(&self, _rt: &R, _node: u32, _entry: u64) {}
}

/// Tells a clock of an execution, and holds it until the clock was read so often since then, for so many tries at most.
#[derive(Drop)]
pub struct ManyReadings<'a> {
    clock: &'a CountingClock,
    wanted: u64,
    gave_up: AtomicBool,
}

impl<'a> ManyReadings<'a> {
    pub fn new(clock: &'a CountingClock, wanted: u64) -> ManyReadings<'a> {
        ManyReadings {
            clock,
            wanted,
            gave_up: AtomicBool::new(false),
        }
    }

    /// Whether no execution waited in vain.
    pub fn was_met(&self) -> bool {
        self.clock.readings() >= self.wanted && !self.gave_up.load(Ordering::SeqCst)
    }
}

impl<'a> Gate for ManyReadings<'a> {
    fn before<R: Wait>(&self, _rt: &R, _node: u32, _entry: u64) {
        self.clock.tell();
        for _ in 0..TURNS {
            if self.clock.readings() >= self.wanted {
                return;
            }
        }
        self.gave_up.store(true, Ordering::SeqCst);
    }

    fn after<R: Wait>(&self, _rt: &R, _node: u32, _entry: u64) {}
}
