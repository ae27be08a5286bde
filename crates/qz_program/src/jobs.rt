//! The jobs that the program has, by their classes: `ok`, `fail`, `last` and `again`.
ghost use Rattle.std.specs.Prelude.{◌≡◌};

use qz_node::{Job, JobContext, Outcome};
use qz_types::{Code, NoMemory};
use std::alloc::Global;

/// A job that gives the same answer at each call.
#[derive(Drop)]
pub struct Steady {
    class: &'static str,
    code: Code,
}

/// A job that asks to be executed again, and then is done, in turn.
#[derive(Drop)]
pub struct Again {
    asked: bool,
}

impl Job for Steady {
    ghost use Rattle.std.specs.Prelude.{None};

    ghost means = { λ job. record { class = job.class.now; calls = None } };

    fn class(&self) -> &str {
        self.class
    }

    fn execute(&mut self, context: &JobContext) -> Outcome {
        let _ = context;
        Outcome { code: self.code }
    }
}

impl Job for Again {
    ghost use Rattle.std.specs.Prelude.{None, codes};

    ghost means = { λ job. record { class = codes "again"; calls = None } };

    fn class(&self) -> &str {
        "again"
    }

    fn execute(&mut self, context: &JobContext) -> Outcome {
        let _ = context;
        self.asked = !self.asked;
        let code = if self.asked {
            Code::ReExecuteJob
        } else {
            Code::Noop
        };
        Outcome { code }
    }
}

/// The program's jobs, each in a box of its own.
#[derive(Drop)]
pub struct OwnJobs {
    pub ok: Box<Steady>,
    pub fail: Box<Steady>,
    pub last: Box<Steady>,
    pub again: Box<Again>,
}

/// The jobs of a call: `ok` is done, `fail` sets its trigger to ERROR, `last` deletes its trigger, and `again` is executed twice.
pub fn own_jobs(alloc: Global) -> Result<OwnJobs, NoMemory> {
    Ok(OwnJobs {
        ok: make_steady(alloc, "ok", Code::Noop)?,
        fail: make_steady(alloc, "fail", Code::SetTriggerError)?,
        last: make_steady(alloc, "last", Code::DeleteTrigger)?,
        again: Box::new(alloc, Again { asked: false })?,
    })
}

fn make_steady(alloc: Global, class: &'static str, code: Code) -> Result<Box<Steady>, NoMemory> {
    Ok(Box::new(alloc, Steady { class, code })?)
}
