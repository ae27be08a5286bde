//! The execution of a firing by the first job of its class.
ghost use Rattle.std.specs.Prelude.{◌≡◌, ◌<◌, position, map, Some};
ghost use Rattle.qz_node.specs.declared.executing.TheConstants.{REFIRE_LIMIT};
ghost use Rattle.qz_node.specs.Jobs.{is_of_class, IsCounted, CallsFirst, Executes};

use qz_node::{Job, JobContext, Jobs, execute_once, place_of_class};
use qz_types::Code;

// Calls the job at this place, which is that of the first job of the class.
fn call_at(jobs: &mut Jobs, place: usize, context: &JobContext) -> Code
    requires found { position (λ job. is_of_class context.now.job.class (means job)) jobs.old.items ≡ Some place }
    ensures called { CallsFirst context.now result (map means jobs.old.items) (map means jobs.new.items) }
    ensures within { result ≡ Code.ReExecuteJob → context.now.refires < REFIRE_LIMIT }
{
    let job = &mut jobs[place];
    call_box(job, context)
}

fn call_box(job: &mut Box<dyn Job + Send>, context: &JobContext) -> Code
    ensures counted { IsCounted context.now result (means job.old) (means job.new) }
    ensures within { result ≡ Code.ReExecuteJob → context.now.refires < REFIRE_LIMIT }
{
    execute_once(&mut **job, context)
}

/// Executes a firing once, by the first job of its class, and answers the code that this asks for. Without a job of the class
/// this is `Code::SetAllJobTriggersError`.
pub(super) fn execute(jobs: &mut Jobs, context: &JobContext) -> Code
    ensures executes { Executes context.now result (map means jobs.old.items) (map means jobs.new.items) }
    ensures within { result ≡ Code.ReExecuteJob → context.now.refires < REFIRE_LIMIT }
{
    match place_of_class(jobs, context.job.class.as_str()) {
        Some(place) => call_at(jobs, place, context),
        None => Code::SetAllJobTriggersError,
    }
}
