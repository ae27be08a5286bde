//! The jobs of this program: two types that implement `Job`.
ghost use Rattle.std.specs.Prelude.{◌≡◌};

use qz_node::{Job, JobContext, Outcome};
use qz_top::Status;
use qz_types::{Code, NoMemory};
use std::alloc::Global;
use std::sync::Arc;
use std::sync::atomic::{AtomicU64, Ordering};

/// A number that a job and the program share.
pub type Counter = Arc<AtomicU64, Global>;

/// A number that is 0.
pub fn new_counter(alloc: Global) -> Result<Counter, Status> {
    match Arc::new(alloc, AtomicU64::new(0)) {
        Ok(counter) => Ok(counter),
        Err(_) => Err(Status::NoMemory),
    }
}

/// After so many calls a reminder asks for its trigger to be deleted.
const REMINDERS: u32 = 3;

/// Counts its calls. The work itself would stand in `execute`.
#[derive(Drop)]
pub struct Backup {
    made: Counter,
}

/// Is done with its trigger after three calls.
#[derive(Drop)]
pub struct Reminder {
    sent: u32,
}

impl Job for Backup {
    ghost use Rattle.std.specs.Prelude.{None, codes};

    ghost means = { λ job. record { class = codes "backup"; calls = None } };

    fn class(&self) -> &str {
        "backup"
    }

    fn execute(&mut self, context: &JobContext) -> Outcome {
        let _ = context;
        self.made.fetch_add(1, Ordering::SeqCst);
        Outcome { code: Code::Noop }
    }
}

impl Job for Reminder {
    ghost use Rattle.std.specs.Prelude.{None, codes};

    ghost means = { λ job. record { class = codes "reminder"; calls = None } };

    fn class(&self) -> &str {
        "reminder"
    }

    fn execute(&mut self, context: &JobContext) -> Outcome {
        let _ = context;
        self.sent = self.sent.saturating_add(1);
        let code = if self.sent < REMINDERS {
            Code::Noop
        } else {
            Code::DeleteTrigger
        };
        Outcome { code }
    }
}

/// A job of each type, each in a box of its own.
#[derive(Drop)]
pub struct OwnJobs {
    pub backup: Box<Backup>,
    pub reminder: Box<Reminder>,
}

/// The jobs of a call. Its backups are counted in this number.
pub fn own_jobs(alloc: Global, backups: &Counter) -> Result<OwnJobs, NoMemory> {
    let made = Arc::try_clone(backups)?;
    Ok(OwnJobs {
        backup: Box::new(alloc, Backup { made })?,
        reminder: Box::new(alloc, Reminder { sent: 0 })?,
    })
}
