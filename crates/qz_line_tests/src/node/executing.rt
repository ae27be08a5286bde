//! The execution of a job from a list, as a caller of the node core writes it.
ghost use Rattle.std.specs.Prelude.{◌≡◌, ◌<◌, map, position, vec_len, Some};
ghost use Rattle.qz_node.specs.Jobs.{is_of_class, IsCounted, CallsFirst, Executes};

use qz_node::{Job, JobContext, Jobs, execute_once, place_of_class};
use qz_types::Code;

/// Executes once, by the first job of the context's class.
pub(super) fn execute(jobs: &mut Jobs, context: &JobContext) -> Code
    ensures { Executes context.now result (map means jobs.old.items) (map means jobs.new.items) }
{
    match place_of_class(jobs, context.job.class.as_str()) {
        Some(place) => execute_at(jobs, place, context),
        None => Code::SetAllJobTriggersError,
    }
}

// Executes the job at this place.
fn execute_at(jobs: &mut Jobs, place: usize, context: &JobContext) -> Code
    requires first { position (λ job. is_of_class context.now.job.class (means job)) jobs.old.items ≡ Some place }
    requires within { place < vec_len jobs.old }
    ensures { CallsFirst context.now result (map means jobs.old.items) (map means jobs.new.items) }
{
    let job = &mut jobs[place];
    execute_boxed(job, context)
}

fn execute_boxed(job: &mut Box<dyn Job + Send>, context: &JobContext) -> Code
    ensures { IsCounted context.now result (means job.old) (means job.new) }
{
    execute_once(&mut **job, context)
}
