//! The entries by which nodes come and go.
ghost use Rattle.std.specs.Prelude.{◌≡◌, IsTrue};
ghost use Rattle.qz_types.specs.Rows.{is_node};
ghost use Rattle.qz_types.specs.declared.commands.Actor.TheVariants as actor;
ghost use Rattle.qz_types.specs.declared.commands.Command.TheVariants as command;
ghost use Rattle.qz_types.specs.declared.states.StateCommand.TheVariants as state_command;

use qz_run::CHECK_IN_INTERVAL;
use qz_types::{Actor, Command, Entry, MemberRow, StateCommand, StateEntry, Text};

/// A node joins.
#[tactic(auto, unfolding(qz_types::specs::Entries::is_entry))]
pub(crate) fn joining(at: i64, name: Text) -> Entry
    requires { IsTrue (is_node name) }
    ensures { result ≡ record { at = at; actor = actor.Client; seat = 0; command = command.Join name } }
{
    Entry {
        at,
        actor: Actor::Client,
        seat: 0,
        command: Command::Join { node: name },
    }
}

/// A member leaves.
#[tactic(auto, unfolding(qz_types::specs::Entries::is_entry))]
pub(crate) fn leaving(at: i64, me: MemberRow) -> Entry
    ensures { result ≡ record { at = at; actor = actor.Node me; seat = 0; command = command.Leave } }
{
    Entry {
        at,
        actor: Actor::Node(me),
        seat: 0,
        command: Command::Leave,
    }
}

/// A node checks in, and means to do so again after `CHECK_IN_INTERVAL`.
pub(crate) fn checking_in(at: i64, name: Text) -> StateEntry
    requires { IsTrue (is_node name) }
    ensures { result ≡ record { at = at; seat = 0; command = state_command.CheckIn name CHECK_IN_INTERVAL } }
{
    StateEntry {
        at,
        seat: 0,
        command: StateCommand::CheckIn {
            node: name,
            interval: CHECK_IN_INTERVAL,
        },
    }
}

/// The row of a node is removed, whose last check-in this is.
pub(crate) fn forgetting(at: i64, name: Text, last: i64) -> StateEntry
    requires { IsTrue (is_node name) }
    ensures { result ≡ record { at = at; seat = 0; command = state_command.Forget name last } }
{
    StateEntry {
        at,
        seat: 0,
        command: StateCommand::Forget { node: name, last },
    }
}
