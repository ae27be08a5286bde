//! The system's clock, as threads share it.
use qz_rounds::SharedClock;
use std::rt::Clock as SystemClock;
use std::sync::Wait;
use std::time::Duration;

/// The system's clock, in ms since 1970-01-01T00:00:00Z, for threads. Where the system gives no reading, or one that is past the
/// end of `i64`, it gives 0. Contracts tell nothing of its readings: it shows any.
#[derive(Drop)]
pub struct SystemShared<C: SystemClock + Drop> {
    system: C,
}

impl<C: SystemClock + Drop> SystemShared<C> {
    /// A clock over the runtime. No memory.
    pub fn new(system: C) -> SystemShared<C> {
        SystemShared { system }
    }
}

impl<C: SystemClock + Drop> SharedClock for SystemShared<C> {
    ghost use Rattle.std.specs.Prelude.{⊤};

    ghost shows = { λ clock reading. ⊤ };

    fn now(&self) -> i64 {
        match self.system.since_1970() {
            Ok(time) => i64::try_from(time.as_millis()).unwrap_or(0),
            Err(_) => 0,
        }
    }

    fn rest<R: Wait>(&self, rt: &R, millis: u32) {
        let _ = rt;
        self.system.sleep(Duration::from_millis(u64::from(millis)));
    }
}
