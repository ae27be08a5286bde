//! What a job is told, and what it answers.
ghost use Rattle.std.specs.Prelude.{◌≡◌, ◌+◌, ◌<◌, ◌^◌, IfOk};
ghost use Rattle.qz_node.specs.Contexts.{context_of, is_recovery};

use qz_types::{Code, JobRow, Key, NoMemory, Reply};

/// The group of the triggers that the scheduler adds for lost executions: Quartz's `DEFAULT_RECOVERY_GROUP`.
const RECOVERY_GROUP: &str = "RECOVERING_JOBS";

/// What a job is told of one execution. Moments are in ms since 1970-01-01T00:00:00Z.
#[derive(Clone, Drop)]
pub struct JobContext {
    /// The job as it was stored when the execution began.
    pub job: JobRow,
    pub trigger: Key,
    /// The entry number of the firing. All its executions have the same.
    pub entry: u64,
    /// The fire time for which the trigger was acquired.
    pub scheduled: i64,
    /// The moment at which the firing began.
    pub fired: i64,
    /// Whether this firing makes up for an execution that was lost with its node.
    pub recovering: bool,
    /// How often the job was executed before in this firing, and asked to be executed again.
    pub refires: u32,
}

/// What a job answers.
#[derive(Clone, Copy, PartialEq, Eq, Debug)]
pub struct Outcome {
    pub code: Code,
}

/// One call of a job and its answer.
#[derive(Drop)]
pub struct Call {
    pub context: JobContext,
    pub code: Code,
}

impl JobContext {
    /// What the job is told at a firing's first execution, where this is the reply to the node's Fire. None at any other
    /// reply. It takes no memory: the job and the trigger are moved.
    pub fn of_reply(reply: Reply) -> Option<JobContext>
        ensures { result ≡ context_of reply }
    {
        match reply {
            Reply::Fired {
                entry,
                scheduled,
                fired,
                next: _,
                trigger,
                job,
            } => {
                let recovering = is_recovery(&trigger);
                Some(JobContext {
                    job,
                    trigger,
                    entry,
                    scheduled,
                    fired,
                    recovering,
                    refires: 0,
                })
            }
            other => {
                drop(other);
                None
            }
        }
    }

    /// From now on the context is that of the next execution of the same firing.
    pub fn refire(&mut self)
        requires { self.old.refires + 1 < 2 ^ 32 }
        ensures { self.new ≡ record self.old { refires = self.old.refires + 1 } }
    {
        self.refires += 1;
    }

    /// The same context again.
    pub fn copy(&self) -> Result<JobContext, NoMemory>
        ensures { IfOk result (λ context. context ≡ self.now) }
    {
        Ok(self.clone()?)
    }
}

// Whether a trigger of this key was added for a lost execution.
fn is_recovery(trigger: &Key) -> bool
    ensures { result ≡ is_recovery trigger.now }
{
    trigger.group.as_str() == RECOVERY_GROUP
}
