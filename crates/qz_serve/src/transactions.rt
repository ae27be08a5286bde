//! One transaction of a store, while no thread is at work.
ghost use Rattle.std.specs.Prelude.{◌≡◌};
ghost use Rattle.qz_rounds.specs.Declining.{stopped_by};
ghost use Rattle.qz_serve.specs.Once.{Once};

use qz_rounds::{NodeStore, RoundStore, declined};
use qz_run::Declined;
use qz_types::{Entry, StateEntry};

// Why the work ends, unless it goes on.
fn unless_stopped(cause: Option<Declined>) -> Result<(), Declined>
    ensures { result ≡ stopped_by cause }
{
    match cause {
        Some(why) => Err(why),
        None => Ok(()),
    }
}

/// Has the trigger store do one transaction. A refusal is passed over, unless it is one at a limit.
pub(crate) fn ask<S: NodeStore>(store: &mut S, entry: Entry) -> Result<(), Declined>
    ensures once { Once S.kind entry result (S.state store.old) (S.state store.new) }
    ensures went { (first : S) → S.Went first store.old → S.Went first store.new }
{
    match store.submit(entry) {
        Ok(reply) => {
            drop(reply);
            Ok(())
        }
        Err(error) => unless_stopped(declined(error)),
    }
}

/// The same of the state store.
pub(crate) fn tell<T: RoundStore>(store: &mut T, entry: StateEntry) -> Result<(), Declined>
    ensures once { Once T.kind entry result (T.state store.old) (T.state store.new) }
    ensures went { (first : T) → T.Went first store.old → T.Went first store.new }
{
    match store.submit(entry) {
        Ok(()) => Ok(()),
        Err(error) => unless_stopped(declined(error)),
    }
}
