//! Jobs as threads have them: known by what they mean, whatever their type is. A function that calls itself through a thread
//! can't name the type of boxed jobs, so threads take any list of jobs, with what executes a firing by it.
ghost use Rattle.std.specs.Prelude.{◌≡◌, List};

use qz_node::{Job, JobContext, Jobs};
use qz_types::Code;
use std::alloc::Global;
use std::marker::{Brand, PhantomData};

/// A node's jobs, as its scheduler thread has them.
pub(crate) trait NodeJobs {
    ghost use Rattle.std.specs.Prelude.{◌≡◌, ◌<◌, List};
    ghost use Rattle.qz_node.specs.declared.executing.TheConstants.{REFIRE_LIMIT};
    ghost use Rattle.qz_node.specs.Jobs.{JobMeaning, Executes};

    /// What each job means, in order.
    ghost meanings: { Self → List JobMeaning };

    /// Whether they can execute a firing.
    ghost lawful: { Self → Type 0 };

    /// Executes a firing once, by the first job of its class, and answers the code that this asks for. Without a job of the class
    /// this is `Code::SetAllJobTriggersError`.
    fn execute(&mut self, context: &JobContext) -> Code
        requires { lawful self.old }
        ensures lawful { lawful self.new }
        ensures executes { Executes context.now result (meanings self.old) (meanings self.new) }
        ensures within { result ≡ Code.ReExecuteJob → context.now.refires < REFIRE_LIMIT };
}

/// A list of jobs that can be taken out of its place.
pub(crate) trait JobList: Drop {
    /// Whether there are none.
    ghost has_none: { Self → Type 0 };

    /// No jobs. It takes no memory.
    fn empty(alloc: Global) -> Self
        ensures { has_none result };
}

impl JobList for Jobs {
    ghost use Rattle.std.specs.Prelude.{◌≡◌, []};

    ghost has_none = { λ jobs. jobs.items ≡ [] };

    fn empty(alloc: Global) -> Jobs {
        Vec::new(alloc)
    }
}

/// What the jobs of a list mean. Who calls picks it, by `Brand`.
pub(crate) trait Meaning<L> {
    ghost use Rattle.std.specs.Prelude.{List};
    ghost use Rattle.qz_node.specs.Jobs.{JobMeaning};

    ghost meanings: { L → List JobMeaning };
}

impl<L> Meaning<L> for Brand {
    ghost use Rattle.std.specs.Prelude.{[]};

    ghost meanings = { λ jobs. [] };
}

/// A list of jobs, and what executes a firing by it.
pub(crate) struct Performer<'a, L: JobList, E: Fn(&mut L, &JobContext) -> Code, M: Meaning<L>> {
    pub(crate) jobs: L,
    pub(crate) run: &'a E,
    pub(crate) meaning: PhantomData<M>,
}

impl<'a, L: JobList, E: Fn(&mut L, &JobContext) -> Code, M: Meaning<L>> NodeJobs
    for Performer<'a, L, E, M> {
    ghost use Rattle.qz_serve.specs.Performing.{AlwaysPerforms};

    ghost meanings = { λ performer. M.meanings performer.jobs };

    ghost lawful = { λ performer. E.IsAlwaysCallable performer.run.now × AlwaysPerforms E.Fn performer.run.now M.meanings };

    fn execute(&mut self, context: &JobContext) -> Code {
        (self.run)(&mut self.jobs, context)
    }
}
