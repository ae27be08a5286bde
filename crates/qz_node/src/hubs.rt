//! A store as one node asks it.
ghost use Rattle.std.specs.Prelude.{◌≡◌, ◌≤ℤ◌, IfOk, Some};
ghost use Rattle.qz_node.specs.Turns.{wanted};
ghost use Rattle.qz_node.specs.Hubs.{command_of, learnt_answer, IsReplyTo};

use crate::{Heard, Turn, Want};
use qz_types::{Command, LONGEST, Reply, SubmitError};

/// A store as one node asks it: each transaction is submitted under the epoch that this node holds.
pub trait Hub {
    ghost use Rattle.std.specs.Prelude.{ℤ, IsTrue, IfOk, Result};
    ghost use Rattle.qz_types.specs.declared.commands.Command.{Command};
    ghost use Rattle.qz_types.specs.declared.errors.SubmitError.{SubmitError};
    ghost use Rattle.qz_types.specs.declared.replies.Reply.{Reply};
    ghost use Rattle.qz_types.specs.Entries.{is_command, is_of_node};
    ghost use Rattle.qz_node.specs.Hubs.{IsReplyTo};

    /// What may be answered to a command at a reading, and what that leaves: it is what the store answers that it stands for.
    ghost answers: { Self → ℤ → Command → Result Reply SubmitError → Self → Type 0 };

    /// Submits a transaction as this node. `at` is the reading of the clock, in ms since 1970-01-01T00:00:00Z: any number, since
    /// the store clamps it. The errors are the store's; a refusal changes nothing.
    fn submit(&mut self, at: i64, command: Command) -> Result<Reply, SubmitError>
        requires valid { IsTrue (is_command command) }
        requires node { IsTrue (is_of_node command) }
        ensures answers { answers self.old at command result self.new }
        ensures reply { IfOk result (IsReplyTo command) };
}

impl Want {
    /// The transaction that is wanted: an Acquire takes one trigger, with no window. None where nothing is asked of a store.
    pub fn command(self) -> Option<Command>
        ensures { result ≡ command_of self }
    {
        match self {
            Want::Misfires => Some(Command::Misfires),
            Want::Acquire { no_later } => Some(Command::Acquire {
                no_later,
                window: 0,
                max: 1,
            }),
            Want::Fire { entry } => Some(Command::Fire { entry }),
            Want::Complete { entry, code } => Some(Command::Complete { entry, code }),
            Want::Execute { entry: _ } => None,
            Want::Rest { until: _ } => None,
            Want::End => None,
        }
    }
}

/// Asks the store for what the turn wants where the clock reads `at`, in ms since 1970-01-01T00:00:00Z, and has the turn learn
/// the answer. A turn learns nothing of a closed store, a full journal, a fault or want of memory.
#[tactic(auto, using(crate::proofs::Hearing::is_valid, crate::proofs::Hearing::is_node_command))]
pub fn ask<H: Hub>(
    hub: &mut H,
    turn: &mut Turn,
    at: i64,
    command: Command,
) -> Result<Reply, SubmitError>
    requires wanted { command_of (wanted turn.old at) ≡ Some command }
    requires until { turn.old.until ≤ℤ LONGEST }
    ensures answers { H.answers hub.old at command result hub.new }
    ensures reply { IfOk result (IsReplyTo command) }
    ensures learnt { turn.new ≡ learnt_answer turn.old result }
    ensures kept { turn.new.until ≡ turn.old.until }
{
    match hub.submit(at, command) {
        Ok(reply) => {
            turn.learn(Heard::Reply(&reply));
            Ok(reply)
        }
        Err(SubmitError::Refused(refusal)) => {
            turn.learn(Heard::Refused(&refusal));
            Err(SubmitError::Refused(refusal))
        }
        Err(error) => Err(error),
    }
}
