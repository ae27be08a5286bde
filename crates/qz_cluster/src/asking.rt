//! Questions about the stored rows.
ghost use Rattle.std.specs.Prelude.{◌≡◌, ℤ, Some, true, is_some, IfOk, IfErr, OnErr};
ghost use Rattle.qz_types.specs.Words.{job_of, trigger_of, fired_of};
ghost use Rattle.qz_tables.specs.Due.{due_first};
ghost use Rattle.qz_steps.specs.declared.steps.Step.TheVariants as step_is;
ghost use Rattle.qz_cluster.specs.Asking.{with_job, time_of, answer_to, has_row};
ghost use Rattle.qz_cluster.specs.Steps.{StepCase, EndCase};
ghost use Rattle.qz_cluster.specs.View.{view, KeepsUnlessDone, EachLeavesEither, IsTold};

use crate::{Cluster, StepEnd};
use qz_civil::beside;
use qz_disk::Disk;
use qz_steps::{Question, Shown, ShownEntry, StepReply};
use qz_tables::Tables;
use qz_types::{FiredRow, JobRow, Key, NoMemory, TriggerRow};

impl<D: Disk> Cluster<D> {
    /// Answers a question by the tables as they are.
    pub(crate) fn show(&self, question: &Question) -> Result<StepReply, StepEnd>
        ensures ok { (at : ℤ) → IfOk result (λ r. StepCase (IsTold self.now) (record { step = step_is.Show question.now; at = at }) r (view self.now) (view self.now)) }
        ensures err { (at : ℤ) → IfErr result (λ e. EndCase (IsTold self.now) (record { step = step_is.Show question.now; at = at }) e (view self.now) (view self.now)) }
        ensures keeps { IfOk result (λ r. KeepsUnlessDone r self.now self.now) }
        ensures any_moment { D.honest → EachLeavesEither self.now self.now }
    {
        if self.triggers.closed() {
            return Ok(StepReply::Closed);
        }
        match answer_to(self.triggers.tables(), question) {
            Ok(shown) => Ok(StepReply::Shown(shown)),
            Err(NoMemory) => Err(StepEnd::NoMemory),
        }
    }
}

/// What a question is answered at these tables.
fn answer_to(tables: &Tables, question: &Question) -> Result<Shown, NoMemory>
    ensures ok { IfOk result (λ shown. shown ≡ answer_to tables.now.tables question.now) }
    ensures memory { OnErr result (has_row (answer_to tables.now.tables question.now) ≡ true) }
{
    match question {
        Question::Job(key) => Ok(Shown::Job(job_of(tables, key)?)),
        Question::Trigger(key) => Ok(Shown::Trigger(trigger_of(tables, key)?)),
        Question::Entry(entry) => Ok(Shown::Entry(entry_of(tables, *entry)?)),
        Question::Next => Ok(Shown::Next(first_time(tables))),
    }
}

fn job_of(tables: &Tables, key: &Key) -> Result<Option<JobRow>, NoMemory>
    ensures ok { IfOk result (λ job. job ≡ job_of key.now tables.now.tables.jobs) }
    ensures memory { OnErr result (is_some (job_of key.now tables.now.tables.jobs) ≡ true) }
{
    match tables.get_job(key) {
        Some(job) => Ok(Some(job.copy()?)),
        None => Ok(None),
    }
}

fn trigger_of(tables: &Tables, key: &Key) -> Result<Option<TriggerRow>, NoMemory>
    ensures ok { IfOk result (λ trigger. trigger ≡ trigger_of key.now tables.now.tables.triggers) }
    ensures memory { OnErr result (is_some (trigger_of key.now tables.now.tables.triggers) ≡ true) }
{
    match tables.get_trigger(key) {
        Some(trigger) => Ok(Some(trigger.copy()?)),
        None => Ok(None),
    }
}

/// The row of an entry number, with its job.
fn entry_of(tables: &Tables, entry: u64) -> Result<Option<ShownEntry>, NoMemory>
    ensures ok { IfOk result (λ shown. shown ≡ with_job tables.now.tables (fired_of entry tables.now.tables.fired)) }
    ensures memory { OnErr result (is_some (with_job tables.now.tables (fired_of entry tables.now.tables.fired)) ≡ true) }
{
    match tables.get_fired(entry) {
        Some(row) => Ok(Some(with_job(tables, row)?)),
        None => Ok(None),
    }
}

fn with_job(tables: &Tables, row: &FiredRow) -> Result<ShownEntry, NoMemory>
    ensures { IfOk result (λ shown. Some shown ≡ with_job tables.now.tables (Some row.now)) }
{
    let job = job_of(tables, &row.job)?;
    let (job, row) = beside(job, row.copy())?;
    Ok(ShownEntry { row, job })
}

/// The next time of the first trigger that waits.
fn first_time(tables: &Tables) -> Option<i64>
    ensures { result ≡ time_of (due_first tables.now.tables.triggers) }
{
    match tables.due_first() {
        Some(trigger) => trigger.next,
        None => None,
    }
}
