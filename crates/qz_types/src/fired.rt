//! Fired rows: which node has which trigger in its hands.
ghost use Rattle.std.specs.Prelude.{◌≡◌, IfOk};

use crate::Key;
use qz_civil::Text;
use std::alloc::AllocError;
use std::marker::Model;

/// Whether a fired row's trigger was only acquired, or its job is executing.
#[derive(Clone, Copy, PartialEq, Eq, Debug)]
pub enum FiredState {
    Acquired,
    Executing,
}

/// What a node has in its hands: a trigger that it acquired, or an execution that it began.
#[derive(Drop)]
pub struct FiredRow {
    /// The entry number, which no other row ever had.
    pub entry: u64,
    /// 1 to `NODE_LIMIT` bytes.
    pub node: Text,
    pub epoch: u64,
    pub trigger: Key,
    pub job: Key,
    pub priority: i32,
    pub state: FiredState,
    /// The fire time for which it was acquired, in ms since 1970-01-01T00:00:00Z.
    pub scheduled: i64,
    /// When the execution began, in ms since 1970-01-01T00:00:00Z.
    pub fired: Option<i64>,
    /// The job's flag, as it was when the trigger was acquired, and from its firing on as it was then.
    pub no_concurrent: bool,
    /// The job's flag, likewise.
    pub requests_recovery: bool,
}

impl Model for FiredRow {
    ghost use Rattle.std.specs.Prelude.{IsTrue};
    ghost use Rattle.qz_types.specs.Rows.{FiredData, is_fired};

    ghost Value = { FiredData };

    ghost view = { λ a. record {
      entry = a.entry;
      node = a.node;
      epoch = a.epoch;
      trigger = a.trigger;
      job = a.job;
      priority = a.priority;
      state = a.state;
      scheduled = a.scheduled;
      fired = a.fired;
      no_concurrent = a.no_concurrent;
      requests_recovery = a.requests_recovery;
    } };

    ghost invariant = { λ a. IsTrue (is_fired (record {
      entry = a.entry;
      node = a.node;
      epoch = a.epoch;
      trigger = a.trigger;
      job = a.job;
      priority = a.priority;
      state = a.state;
      scheduled = a.scheduled;
      fired = a.fired;
      no_concurrent = a.no_concurrent;
      requests_recovery = a.requests_recovery;
    })) };

    ghost inverse = { λ d. record {
      entry = d.entry;
      node = d.node;
      epoch = d.epoch;
      trigger = d.trigger;
      job = d.job;
      priority = d.priority;
      state = d.state;
      scheduled = d.scheduled;
      fired = d.fired;
      no_concurrent = d.no_concurrent;
      requests_recovery = d.requests_recovery;
    } };
}

impl Clone for FiredRow {
    ghost is_clone = { λ a b. b ≡ a };

    fn clone(&self) -> Result<Self, AllocError> {
        Ok(FiredRow {
            entry: self.entry,
            node: self.node.clone()?,
            epoch: self.epoch,
            trigger: self.trigger.clone()?,
            job: self.job.clone()?,
            priority: self.priority,
            state: self.state,
            scheduled: self.scheduled,
            fired: self.fired,
            no_concurrent: self.no_concurrent,
            requests_recovery: self.requests_recovery,
        })
    }
}

impl FiredRow {
    /// The same row again.
    pub fn copy(&self) -> Result<Self, AllocError>
        ensures { IfOk result (λ row. row ≡ self.now) }
    {
        self.clone()
    }
}
