//! Jobs that are handed in.
use crate::{JobContext, Outcome};

/// What is run under a class. A caller hands in its own, boxed, as a `Jobs`.
pub trait Job: Drop {
    ghost use Rattle.std.specs.Prelude.{◌≡◌};
    ghost use Rattle.qz_node.specs.Jobs.{JobMeaning, IsCalled};

    /// Its class; and its calls so far with their answers, where it tells them.
    ghost means: { Self → JobMeaning };

    /// The class under which jobs name it. It never changes.
    fn class(&self) -> &str
        ensures { result.now ≡ (means self.now).class };

    /// One execution, and what it asks for when it is done.
    fn execute(&mut self, context: &JobContext) -> Outcome
        ensures { IsCalled context.now result.code (means self.old) (means self.new) };
}
