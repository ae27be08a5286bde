//! The entries that steps submit.
ghost use Rattle.std.specs.Prelude.{◌≡◌, IsTrue};
ghost use Rattle.qz_types.specs.Entries.{is_command, is_of_node};
ghost use Rattle.qz_types.specs.declared.commands.Actor.TheVariants as actor;
ghost use Rattle.qz_cluster.specs.Script.{entry_of};

use qz_types::{Actor, Command, Entry, MemberRow};

#[tactic(auto, unfolding(qz_types::specs::Entries::is_entry))]
pub(crate) fn client_entry(command: Command, at: i64) -> Entry
    requires valid { IsTrue (is_command command) }
    requires client { IsTrue (is_of_node command) → ⊥ }
    ensures { result ≡ entry_of actor.Client command at }
{
    Entry {
        at,
        actor: Actor::Client,
        seat: 0,
        command,
    }
}

#[tactic(auto, unfolding(qz_types::specs::Entries::is_entry))]
pub(crate) fn node_entry(me: MemberRow, command: Command, at: i64) -> Entry
    requires valid { IsTrue (is_command command) }
    requires node { IsTrue (is_of_node command) }
    ensures { result ≡ entry_of (actor.Node me) command at }
{
    Entry {
        at,
        actor: Actor::Node(me),
        seat: 0,
        command,
    }
}
