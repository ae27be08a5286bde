//! The execution of a firing by the first job of its class.
ghost use Rattle.std.specs.Prelude.{◌≡◌, ◌<◌, map, position, vec_len, IfSome, IfNone, false};
ghost use Rattle.std.specs.List.{list_any};
ghost use Rattle.qz_node.specs.Jobs.{is_of_class, counted, IsCounted};

use crate::{Job, JobContext};
use qz_types::Code;

/// How often a firing is executed again at most.
pub const REFIRE_LIMIT: u32 = 8;

/// The jobs of one node. Of several of one class the first is used.
pub type Jobs = Vec<Box<dyn Job + Send>>;

/// The place of the first job of this class.
pub fn place_of_class(jobs: &Jobs, class: &str) -> Option<usize>
    ensures first { result ≡ position (λ job. is_of_class class.now (means job)) jobs.now.items }
    ensures within { IfSome result (λ place. place < vec_len jobs.now) }
    ensures none { IfNone result (list_any (is_of_class class.now) (map means jobs.now.items) ≡ false) }
{
    for place in 0..jobs.len() {
        if is_of_class(&jobs[place], class) {
            return Some(place);
        }
    }
    None
}

/// Executes the job once, and answers what this counts as: the code that the job answers, except that a job that has been
/// executed again `REFIRE_LIMIT` times in this firing and asks for it once more counts as one that failed, with
/// `Code::SetTriggerError`.
pub fn execute_once(job: &mut (dyn Job + Send), context: &JobContext) -> Code
    ensures counted { IsCounted context.now result (means job.old) (means job.new) }
    ensures within { result ≡ Code.ReExecuteJob → context.now.refires < 8 }
{
    let outcome = job.execute(context);
    counted(context.refires, outcome.code)
}

// Whether the job is of this class.
fn is_of_class(job: &Box<dyn Job + Send>, class: &str) -> bool
    ensures { result ≡ is_of_class class.now (means job.now) }
{
    job.class() == class
}

// What an answer counts as, after so many answers ReExecuteJob in its firing.
fn counted(refires: u32, answer: Code) -> Code
    ensures counts { result ≡ counted refires answer }
    ensures within { result ≡ Code.ReExecuteJob → refires < 8 }
{
    match answer {
        Code::ReExecuteJob => {
            if refires < REFIRE_LIMIT {
                Code::ReExecuteJob
            } else {
                Code::SetTriggerError
            }
        }
        other => other,
    }
}
