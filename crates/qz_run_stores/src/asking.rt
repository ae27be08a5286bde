//! The entries by which a run's nodes ask.
ghost use Rattle.std.specs.Prelude.{◌≡◌, pos, IfOk, IsTrue};
ghost use Rattle.qz_model.specs.History.{replay};
ghost use Rattle.qz_trigger_store.specs.View.{view};
ghost use Rattle.qz_types.specs.Entries.{is_command, is_of_node};
ghost use Rattle.qz_types.specs.Rows.{is_node};
ghost use Rattle.qz_types.specs.declared.commands.Actor.TheVariants as actor;
ghost use Rattle.qz_types.specs.declared.commands.Command.TheVariants as command_is;
ghost use Rattle.qz_run.specs.declared.commands.NodeCommand.TheVariants as asks;
ghost use Rattle.qz_seen.specs.Asking.{epoch_of, entry_of};
ghost use Rattle.qz_run_stores.specs.Declining.{IsDeclinable, declined_of, IsAskable};
ghost use Rattle.qz_run_stores.specs.View.{triggers_of};

use crate::RunStores;
use crate::names::node_name;
use qz_disk::Disk;
use qz_run::{Declined, NodeCommand};
use qz_tables::Tables;
use qz_types::{
    Actor, Command, Entry, MemberRow, NoMemory, Refusal, STATE_LIMIT, SubmitError, Text,
};

impl<D: Disk> RunStores<D> {
    // The entry of what this node asks.
    pub(crate) fn entry(&self, at: i64, node: u32, command: NodeCommand) -> Result<Entry, NoMemory>
        requires { IsAskable command }
        ensures { IfOk result (λ e. e ≡ entry_of (replay (view (triggers_of self.now)).history) at node command) }
    {
        let name = node_name(self.alloc, node)?;
        let tables = self.triggers.tables();
        match command {
            NodeCommand::Join => Ok(joining(at, name)),
            NodeCommand::Leave => Ok(working(tables, at, name, Command::Leave)),
            NodeCommand::Misfires => Ok(working(tables, at, name, Command::Misfires)),
            NodeCommand::Acquire { no_later } => {
                Ok(working(tables, at, name, acquiring(no_later)))
            }
            NodeCommand::Fire { entry } => {
                Ok(working(tables, at, name, Command::Fire { entry }))
            }
            NodeCommand::Complete { entry, code } => {
                Ok(working(tables, at, name, Command::Complete { entry, code }))
            }
        }
    }
}

// A node joins.
#[tactic(auto, unfolding(qz_types::specs::Entries::is_entry))]
fn joining(at: i64, name: Text) -> Entry
    requires { IsTrue (is_node name) }
    ensures { result ≡ record { at = at; actor = actor.Client; seat = 0; command = command_is.Join name } }
{
    Entry {
        at,
        actor: Actor::Client,
        seat: 0,
        command: Command::Join { node: name },
    }
}

// A node asks under the epoch of the member of its name.
#[tactic(auto, unfolding(qz_types::specs::Entries::is_entry))]
fn working(tables: &Tables, at: i64, name: Text, command: Command) -> Entry
    requires name { IsTrue (is_node name) }
    requires valid { IsTrue (is_command command) }
    requires node { IsTrue (is_of_node command) }
    ensures { result ≡ record { at = at; actor = actor.Node (record { node = name; epoch = epoch_of tables.now.tables name }); seat = 0; command = command } }
{
    let epoch = epoch_of(tables, &name);
    Entry {
        at,
        actor: Actor::Node(MemberRow { node: name, epoch }),
        seat: 0,
        command,
    }
}

// It acquires one trigger at most.
fn acquiring(no_later: i64) -> Command
    requires { IsAskable (asks.Acquire no_later) }
    ensures command { result ≡ command_is.Acquire no_later (pos 0) 1 }
    ensures valid { IsTrue (is_command result) }
{
    Command::Acquire {
        no_later,
        window: 0,
        max: 1,
    }
}

// The epoch of the member of this name, or 0.
#[tactic(auto, unfolding(qz_seen::specs::Asking::epoch_of, qz_model::specs::Membership::live_epoch))]
fn epoch_of(tables: &Tables, name: &Text) -> u64
    ensures { result ≡ epoch_of tables.now.tables name.now }
{
    match tables.get_member(name) {
        Some(member) => member.epoch,
        None => 0,
    }
}

// What a run is told of a store's error.
pub(crate) fn declined(error: SubmitError) -> Declined
    requires { IsDeclinable error }
    ensures { result ≡ declined_of error }
{
    match error {
        SubmitError::Refused(Refusal::TooMany { count }) => Declined::TooMany { count },
        SubmitError::Refused(Refusal::RowsFull) => Declined::TooMany { count: STATE_LIMIT },
        SubmitError::Refused(_) => unreachable!(),
        SubmitError::JournalFull { need, room } => Declined::JournalFull { need, room },
        SubmitError::NoMemory => Declined::NoMemory,
        SubmitError::Fault | SubmitError::Closed { at: _ } => Declined::Fault,
    }
}
