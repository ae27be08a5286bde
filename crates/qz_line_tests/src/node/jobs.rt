//! Executions by the first job of a class.
ghost use Rattle.std.specs.Prelude.{IsTrue};
ghost use Rattle.qz_civil.specs.Timings.{is_name};

use super::executing::execute;
use super::rows::{T0, is_class, job, key};
use crate::rows::{Row, check};
use qz_civil::beside;
use qz_node::{Call, Job, JobContext, Jobs, ListJob};
use qz_types::{Code, Key, List, Reply, Text};
use std::alloc::{AllocError, Global};

// A job of this class that answers these codes.
fn list_job(alloc: Global, class: &str, codes: &[Code]) -> Result<ListJob, AllocError> {
    let class = Text::from_str(alloc, class)?;
    let (class, codes) = beside(class, codes.to_vec(alloc))?;
    Ok(ListJob::new(alloc, class, List::from_vec(codes)))
}

// What a job of this class is told.
fn context_of(alloc: Global, class: &str, refires: u32) -> Result<JobContext, AllocError>
    requires { IsTrue (is_name class.now) }
{
    let job = job(alloc, class)?;
    let (job, trigger) = beside(job, key(alloc, "t"))?;
    Ok(JobContext {
        job,
        trigger,
        entry: 1,
        scheduled: T0,
        fired: T0,
        recovering: false,
        refires,
    })
}

/// The class of the execution, how often it was executed before in its firing, and what the execution counts as.
type Execution = (&'static str, u32, Code);

/// Executions by one list of jobs, one after another.
type JobsRow = &'static [Execution];

fn boxed(alloc: Global, class: &str, codes: &[Code]) -> Result<Box<ListJob>, AllocError> {
    let job = list_job(alloc, class, codes)?;
    match Box::new(alloc, job) {
        Ok(boxed) => Ok(boxed),
        Err(failed) => {
            drop(failed);
            Err(AllocError)
        }
    }
}

type Three = (Box<ListJob>, (Box<ListJob>, Box<ListJob>));

// One that always asks to be executed again, and two of one class.
fn three_jobs(alloc: Global) -> Result<Three, AllocError> {
    let again = boxed(alloc, "again", &[Code::ReExecuteJob; 20])?;
    beside(again, two_jobs(alloc))
}

fn two_jobs(alloc: Global) -> Result<(Box<ListJob>, Box<ListJob>), AllocError> {
    let first = boxed(alloc, "ok", &[Code::DeleteTrigger, Code::ReExecuteJob])?;
    beside(first, boxed(alloc, "ok", &[Code::SetTriggerComplete]))
}

// Whether an execution counts as the row says.
fn counts_so(alloc: Global, jobs: &mut Jobs, execution: &Execution) -> Result<bool, AllocError> {
    let &(class, refires, want) = execution;
    if !is_class(class) {
        return Ok(false);
    }
    let context = context_of(alloc, class, refires)?;
    let code = execute(jobs, &context);
    drop(context);
    Ok(code == want)
}

fn all_count_so(alloc: Global, jobs: &mut Jobs, row: &JobsRow) -> Result<bool, AllocError> {
    for execution in *row {
        if !counts_so(alloc, jobs, execution)? {
            return Ok(false);
        }
    }
    Ok(true)
}

impl Row for JobsRow {
    fn holds(&self, alloc: Global) -> Result<bool, AllocError> {
        let (again, (first, second)) = three_jobs(alloc)?;
        let boxes: [Box<dyn Job + Send>; 3] = [again, first, second];
        let mut jobs = Vec::from_array(alloc, boxes)?;
        let is_right = all_count_so(alloc, &mut jobs, self);
        drop(jobs);
        is_right
    }
}

/// The first job of a class is called and no other; without one the job's triggers are in error. A ninth execution again counts
/// as an error of the trigger.
const ROWS: &[JobsRow] = &[
    &[
        ("ok", 0, Code::DeleteTrigger),
        ("none", 0, Code::SetAllJobTriggersError),
        ("ok", 0, Code::ReExecuteJob),
        ("ok", 1, Code::Noop),
        ("ok", 0, Code::Noop),
        ("OK", 0, Code::SetAllJobTriggersError),
    ],
    &[
        ("again", 0, Code::ReExecuteJob),
        ("again", 1, Code::ReExecuteJob),
        ("again", 7, Code::ReExecuteJob),
        ("again", 8, Code::SetTriggerError),
        ("again", 9, Code::SetTriggerError),
        ("again", 0, Code::ReExecuteJob),
    ],
];

#[test]
fn first_jobs_are_executed(rt: HostRuntime) -> Result<(), AllocError> {
    check(&rt, rt.alloc(), ROWS)
}

// Whether these are the calls of two executions of one firing.
fn are_kept(calls: &[Call]) -> bool {
    match calls {
        [first, second] => {
            first.context.refires == 0
                && first.code == Code::ReExecuteJob
                && second.context.refires == 1
                && second.code == Code::Noop
        }
        _ => false,
    }
}

// Whether a job keeps its calls, and the next context of a firing counts the executions before.
fn keeps_calls(job: &mut ListJob, context: &mut JobContext) -> bool {
    if context.refires != 0 {
        return false;
    }
    let first = job.execute(context);
    context.refire();
    let second = job.execute(context);
    let kept = match job.calls() {
        Some(calls) => are_kept(calls.as_slice()),
        None => false,
    };
    kept && first.code == Code::ReExecuteJob && second.code == Code::Noop
}

fn job_and_context(alloc: Global) -> Result<(ListJob, JobContext), AllocError> {
    let job = list_job(alloc, "ok", &[Code::ReExecuteJob])?;
    beside(job, context_of(alloc, "ok", 0))
}

fn are_calls_kept(alloc: Global) -> Result<bool, AllocError> {
    let (mut job, mut context) = job_and_context(alloc)?;
    let kept = keeps_calls(&mut job, &mut context);
    drop(job);
    drop(context);
    Ok(kept)
}

#[test]
fn calls_are_kept(rt: HostRuntime) {
    assert!(rt; are_calls_kept(rt.alloc()) == Ok(true));
}

fn fired(alloc: Global, group: &str) -> Result<Reply, AllocError> {
    let job = job(alloc, "ok")?;
    let (job, trigger) = beside(job, Key::new(alloc, group, "t"))?;
    Ok(Reply::Fired {
        entry: 9,
        scheduled: T0,
        fired: T0 + 5,
        next: None,
        trigger,
        job,
    })
}

// Whether the reply to a Fire says so, and the rest of the context.
fn is_recovering(alloc: Global, group: &str) -> Result<bool, AllocError> {
    let reply = fired(alloc, group)?;
    Ok(match JobContext::of_reply(reply) {
        Some(context) => {
            let is_right = context.recovering
                && context.refires == 0
                && context.entry == 9
                && context.scheduled == T0
                && context.fired == T0 + 5;
            drop(context);
            is_right
        }
        None => false,
    })
}

#[test]
fn recovery_triggers_are_known(rt: HostRuntime) {
    assert!(rt; is_recovering(rt.alloc(), "RECOVERING_JOBS") == Ok(true));
    assert!(rt; is_recovering(rt.alloc(), "DEFAULT") == Ok(false));
}
