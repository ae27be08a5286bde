//! Triggers.
ghost use Rattle.std.specs.Prelude.{◌≡◌, IfOk};

use crate::Key;
use qz_civil::{Text, Timing, beside};
use std::alloc::AllocError;
use std::marker::Model;

/// A trigger as a client gives it.
#[derive(Debug, Drop)]
pub struct TriggerSpec {
    pub key: Key,
    pub job: Key,
    /// Of triggers that are due at one time, the greater priority is acquired first.
    pub priority: i32,
    /// The calendar that excludes fire times. Its name has 1 to `NAME_LIMIT` bytes.
    pub calendar: Option<Text>,
    pub timing: Timing,
}

impl Clone for TriggerSpec {
    ghost is_clone = { λ a b. b ≡ a };

    fn clone(&self) -> Result<Self, AllocError> {
        let keys = self.copy_keys()?;
        let ((key, job), (calendar, timing)) = beside(keys, self.copy_times())?;
        Ok(TriggerSpec {
            key,
            job,
            priority: self.priority,
            calendar,
            timing,
        })
    }
}

impl TriggerSpec {
    // Its own key and its job's.
    fn copy_keys(&self) -> Result<(Key, Key), AllocError>
        ensures { IfOk result (λ keys. (keys.0 ≡ self.now.key) × (keys.1 ≡ self.now.job)) }
    {
        let key = self.key.clone()?;
        beside(key, self.job.clone())
    }

    // When it fires.
    fn copy_times(&self) -> Result<(Option<Text>, Timing), AllocError>
        ensures { IfOk result (λ times. (times.0 ≡ self.now.calendar) × (times.1 ≡ self.now.timing)) }
    {
        let calendar = self.calendar.clone()?;
        beside(calendar, self.timing.clone())
    }

    /// The same trigger again.
    pub fn copy(&self) -> Result<Self, AllocError>
        ensures { IfOk result (λ spec. spec ≡ self.now) }
    {
        self.clone()
    }
}

/// Where a trigger stands, as Quartz's job store has it.
#[derive(Clone, Copy, PartialEq, Eq, Debug)]
pub enum TriggerState {
    Waiting,
    Acquired,
    Complete,
    Blocked,
    Paused,
    PausedBlocked,
    Error,
}

/// A stored trigger.
#[derive(Drop)]
pub struct TriggerRow {
    pub spec: TriggerSpec,
    /// Its next fire time, in ms since 1970-01-01T00:00:00Z.
    pub next: Option<i64>,
    /// The fire time before, in ms since 1970-01-01T00:00:00Z.
    pub prev: Option<i64>,
    /// How often it fired: 0 to `TIMES_LIMIT`.
    pub times: u64,
    pub state: TriggerState,
}

impl Model for TriggerRow {
    ghost use Rattle.std.specs.Prelude.{IsTrue};
    ghost use Rattle.qz_types.specs.Rows.{TriggerData, is_trigger};

    ghost Value = { TriggerData };

    ghost view = { λ a. record { spec = a.spec; next = a.next; prev = a.prev; times = a.times; state = a.state } };

    ghost invariant = { λ a. IsTrue (is_trigger (record {
      spec = a.spec;
      next = a.next;
      prev = a.prev;
      times = a.times;
      state = a.state;
    })) };

    ghost inverse = { λ d. record { spec = d.spec; next = d.next; prev = d.prev; times = d.times; state = d.state } };
}

impl Clone for TriggerRow {
    ghost is_clone = { λ a b. b ≡ a };

    fn clone(&self) -> Result<Self, AllocError> {
        Ok(TriggerRow {
            spec: self.spec.clone()?,
            next: self.next,
            prev: self.prev,
            times: self.times,
            state: self.state,
        })
    }
}

impl TriggerRow {
    /// The same trigger again.
    pub fn copy(&self) -> Result<Self, AllocError>
        ensures { IfOk result (λ row. row ≡ self.now) }
    {
        self.clone()
    }
}
