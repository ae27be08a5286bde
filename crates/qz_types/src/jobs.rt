//! Jobs.
ghost use Rattle.std.specs.Prelude.{◌≡◌, IfOk};

use crate::Key;
use qz_civil::Text;
use std::alloc::AllocError;
use std::marker::Model;

/// A stored job.
#[derive(Debug, Drop)]
pub struct JobRow {
    pub key: Key,
    /// What executes it, by a name of 1 to `NAME_LIMIT` bytes.
    pub class: Text,
    /// Whether it stays stored without a trigger.
    pub durable: bool,
    /// Whether two of its executions exclude each other (Quartz's DisallowConcurrentExecution).
    pub no_concurrent: bool,
    /// Whether an execution that is lost with its node yields a recovery trigger.
    pub requests_recovery: bool,
    /// Data for the executing class, which the scheduler doesn't read. At most `PAYLOAD_LIMIT` bytes.
    pub payload: Text,
}

impl Model for JobRow {
    ghost use Rattle.std.specs.Prelude.{IsTrue};
    ghost use Rattle.qz_types.specs.Rows.{JobData, is_job};

    ghost Value = { JobData };

    ghost view = { λ a. record {
      key = a.key;
      class = a.class;
      durable = a.durable;
      no_concurrent = a.no_concurrent;
      requests_recovery = a.requests_recovery;
      payload = a.payload;
    } };

    ghost invariant = { λ a. IsTrue (is_job (record {
      key = a.key;
      class = a.class;
      durable = a.durable;
      no_concurrent = a.no_concurrent;
      requests_recovery = a.requests_recovery;
      payload = a.payload;
    })) };

    ghost inverse = { λ d. record {
      key = d.key;
      class = d.class;
      durable = d.durable;
      no_concurrent = d.no_concurrent;
      requests_recovery = d.requests_recovery;
      payload = d.payload;
    } };
}

impl Clone for JobRow {
    ghost is_clone = { λ a b. b ≡ a };

    fn clone(&self) -> Result<Self, AllocError> {
        Ok(JobRow {
            key: self.key.clone()?,
            class: self.class.clone()?,
            durable: self.durable,
            no_concurrent: self.no_concurrent,
            requests_recovery: self.requests_recovery,
            payload: self.payload.clone()?,
        })
    }
}

impl JobRow {
    /// The same job again.
    pub fn copy(&self) -> Result<Self, AllocError>
        ensures { IfOk result (λ row. row ≡ self.now) }
    {
        self.clone()
    }
}
