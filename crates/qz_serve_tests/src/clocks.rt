//! Clocks that go on as the threads do.
use crate::disks::Seen;
use qz_rounds::SharedClock;
use std::sync::Wait;
use std::sync::atomic::{AtomicBool, AtomicI64, AtomicU64, Ordering};

/// By how much the clock goes on at a rest, in ms: as long as lies between two check-ins.
const STEP: i64 = 7500;

/// Begins at a moment, goes on at each rest, which returns at once, and stays before `until` as long as no sync waits.
#[derive(Drop)]
pub struct RestingClock<'a> {
    at: AtomicI64,
    until: i64,
    seen: &'a Seen,
}

impl<'a> RestingClock<'a> {
    pub fn new(at: i64, until: i64, seen: &'a Seen) -> RestingClock<'a> {
        RestingClock {
            at: AtomicI64::new(at),
            until,
            seen,
        }
    }
}

impl<'a> SharedClock for RestingClock<'a> {
    ghost use Rattle.std.specs.Prelude.{⊤};

    ghost shows = { λ clock at. ⊤ };

    fn now(&self) -> i64 {
        let at = self.at.load(Ordering::SeqCst);
        if self.seen.sync_began() {
            return at;
        }
        at.min(self.until.saturating_sub(1))
    }

    fn rest<R: Wait>(&self, _rt: &R, _millis: u32) {
        self.at.fetch_add(STEP, Ordering::SeqCst);
    }
}

/// Shows one moment until it is told of an execution, and then a later one. It counts its readings since then.
#[derive(Drop)]
pub struct CountingClock {
    at: i64,
    later: i64,
    told: AtomicBool,
    readings: AtomicU64,
}

impl CountingClock {
    pub fn new(at: i64, later: i64) -> CountingClock {
        CountingClock {
            at,
            later,
            told: AtomicBool::new(false),
            readings: AtomicU64::new(0),
        }
    }

    /// Tells it that an execution has begun.
    pub fn tell(&self) {
        self.told.store(true, Ordering::SeqCst);
    }

    pub fn readings(&self) -> u64 {
        self.readings.load(Ordering::SeqCst)
    }
}

impl SharedClock for CountingClock {
    ghost use Rattle.std.specs.Prelude.{⊤};

    ghost shows = { λ clock at. ⊤ };

    fn now(&self) -> i64 {
        if !self.told.load(Ordering::SeqCst) {
            return self.at;
        }
        self.readings.fetch_add(1, Ordering::SeqCst);
        self.later
    }

    fn rest<R: Wait>(&self, _rt: &R, _millis: u32) {}
}

/// How often a rest of a `RestsClock` looks at nothing, so that it takes some time.
const SPINS: u64 = 100_000;

/// Begins at 0, and goes on by as much as each rest asks for. It counts the rests, and notes the longest one.
#[derive(Drop)]
pub struct RestsClock {
    at: AtomicI64,
    rests: AtomicU64,
    longest: AtomicU64,
}

impl RestsClock {
    pub fn new() -> RestsClock {
        RestsClock {
            at: AtomicI64::new(0),
            rests: AtomicU64::new(0),
            longest: AtomicU64::new(0),
        }
    }

    /// How many rests there were.
    pub fn rests(&self) -> u64 {
        self.rests.load(Ordering::SeqCst)
    }

    /// How long the longest one was, in ms.
    pub fn longest(&self) -> u64 {
        self.longest.load(Ordering::SeqCst)
    }
}

impl SharedClock for RestsClock {
    ghost use Rattle.std.specs.Prelude.{⊤};

    ghost shows = { λ clock at. ⊤ };

    fn now(&self) -> i64 {
        self.at.load(Ordering::SeqCst)
    }

    fn rest<R: Wait>(&self, _rt: &R, millis: u32) {
        for _ in 0..SPINS {
            let _ = self.rests();
        }
        self.at.fetch_add(i64::from(millis), Ordering::SeqCst);
        self.rests.fetch_add(1, Ordering::SeqCst);
        self.longest.fetch_max(u64::from(millis), Ordering::SeqCst);
    }
}
