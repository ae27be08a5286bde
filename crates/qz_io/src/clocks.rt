//! A clock over a list.
ghost use Rattle.std.specs.Prelude.{◌≡◌, ◌∷◌, ◌++◌, [], length, Some};
ghost use Rattle.qz_io.specs.Clocks.{Tells, reading_at};

use crate::Clock;
use crate::logs::Log;
use qz_civil::List;
use std::marker::Model;

/// A clock that gives the readings of a list, and then the last one again and again: 0, where the list is empty.
#[derive(Drop)]
pub struct ListClock {
    readings: List<i64>,
    at: usize,
    log: Log,
}

impl Model for ListClock {
    ghost use Rattle.std.specs.Prelude.{◌≡◌, ◌-◌, min, length};
    ghost use Rattle.qz_io.specs.Clocks.{ListClockData};

    ghost Value = { ListClockData };

    ghost view = { λ a. record { readings = a.readings; given = a.log.given } };

    ghost invariant = { λ a. a.at ≡ min (length a.log.given) (length a.readings - 1) };
}

impl ListClock {
    /// A clock that gave nothing yet. No memory.
    pub fn new(readings: List<i64>) -> ListClock
        ensures { result ≡ record { readings = readings; given = [] } }
    {
        ListClock {
            readings,
            at: 0,
            log: Log::new(),
        }
    }
}

impl Clock for ListClock {
    ghost readings = { λ s. Some s.given };

    fn now(&mut self) -> i64
        ensures tells { Tells (Some self.old.given) (Some self.new.given) (result ∷ []) }
        ensures exact { result ≡ reading_at self.old.readings (length self.old.given) }
        ensures list { self.new.readings ≡ self.old.readings }
    {
        let reading = self.readings.as_slice().get(self.at).copied().unwrap_or(0);
        if self.at + 1 < self.readings.len() {
            self.at += 1;
        }
        self.log = Log::and(&self.log, &reading);
        reading
    }
}
