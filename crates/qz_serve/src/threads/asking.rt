//! One call of the trigger store by a node's scheduler thread.
ghost use Rattle.std.specs.Prelude.{◌≡◌, ◌≤ℤ◌, Some, false, IsTrue, IfOk, IfErr};
ghost use mathlib.Core.List.{IsPrefix};
ghost use Rattle.qz_types.specs.Entries.{is_command, is_of_node};
ghost use Rattle.qz_row_lock.specs.Seats.{IsOf, mine, seen, is_out, first_value};
ghost use Rattle.qz_shared.specs.Calls.{known};
ghost use Rattle.qz_rounds.specs.Declining.{IsCause};
ghost use Rattle.qz_node.specs.Turns.{wanted};
ghost use Rattle.qz_node.specs.Hubs.{command_of, learnt_answer, IsReplyTo};
ghost use Rattle.qz_serve.specs.Entries.{entry_by};
ghost use Rattle.qz_serve.specs.Asking.{KeepsSeat, DeedsAfter, AddsOwn, deeds};
ghost use Rattle.qz_serve.specs.Finished.{WasAccepted};

use qz_node::{Heard, Turn};
use qz_rounds::NodeStore;
use qz_shared::{StoreRow, StoreSeat, submit};
use qz_types::{Actor, Command, Entry, LONGEST, MemberRow, Reply, SubmitError};
use std::sync::Wait;

// The entry of what a node asks.
#[tactic(auto, unfolding(qz_types::specs::Entries::is_entry))]
fn entry_of(at: i64, me: MemberRow, seat: u32, command: Command) -> Entry
    requires valid { IsTrue (is_command command) }
    requires node { IsTrue (is_of_node command) }
    ensures { result ≡ entry_by at me seat command }
{
    Entry {
        at,
        actor: Actor::Node(me),
        seat,
        command,
    }
}

// Has the store do one transaction of a node.
fn submit_as<S: NodeStore, R: Wait>(
    rt: &R,
    row: &StoreRow<S>,
    me: &MemberRow,
    seat: &mut StoreSeat<S>,
    at: i64,
    command: Command,
) -> Result<Reply, SubmitError>
    requires of { IsOf row.now seat.old }
    requires home { is_out seat.old ≡ false }
    requires valid { IsTrue (is_command command) }
    requires node { IsTrue (is_of_node command) }
    ensures of { IsOf row.now seat.new }
    ensures home { is_out seat.new ≡ false }
    ensures same { KeepsSeat seat.old seat.new }
    ensures fits { IfOk result (IsReplyTo command) }
    ensures deeds { DeedsAfter result (entry_by at me.now seat.old.number command) (deeds row.now seat.old) (deeds row.now seat.new) }
    ensures mine { AddsOwn result (entry_by at me.now seat.old.number command) (mine seat.old) (mine seat.new) }
    ensures begins { IsPrefix (seen seat.old) (seen seat.new) }
    ensures accepted { IfOk result (λ reply. WasAccepted S.kind S.listed (S.state (first_value row.now).opened.value) (entry_by at me.now seat.old.number command) reply (seen seat.new)) }
    ensures cause { IfErr result (IsCause S.kind S.listed (S.state (first_value row.now).opened.value) (entry_by at me.now seat.old.number command) (known seat.new)) }
{
    let Ok(me) = me.copy() else {
        drop(command);
        return Err(SubmitError::NoMemory);
    };
    let entry = entry_of(at, me, seat.number, command);
    submit(rt, row, seat, entry)
}

/// Has the store do what the turn wants, where the clock reads `at`, and has the turn learn the answer. A turn learns nothing of
/// a closed store, a full journal, a fault or want of memory.
#[tactic(auto, using(qz_node::proofs::Hearing::is_valid, qz_node::proofs::Hearing::is_node_command, qz_node::proofs::Hearing::can_hear))]
pub(super) fn ask<S: NodeStore, R: Wait>(
    rt: &R,
    row: &StoreRow<S>,
    me: &MemberRow,
    seat: &mut StoreSeat<S>,
    turn: &mut Turn,
    at: i64,
    command: Command,
) -> Result<Reply, SubmitError>
    requires of { IsOf row.now seat.old }
    requires home { is_out seat.old ≡ false }
    requires wanted { command_of (wanted turn.old at) ≡ Some command }
    requires until { turn.old.until ≤ℤ LONGEST }
    ensures of { IsOf row.now seat.new }
    ensures home { is_out seat.new ≡ false }
    ensures same { KeepsSeat seat.old seat.new }
    ensures learnt { turn.new ≡ learnt_answer turn.old result }
    ensures until { turn.new.until ≡ turn.old.until }
    ensures fits { IfOk result (IsReplyTo command) }
    ensures deeds { DeedsAfter result (entry_by at me.now seat.old.number command) (deeds row.now seat.old) (deeds row.now seat.new) }
    ensures mine { AddsOwn result (entry_by at me.now seat.old.number command) (mine seat.old) (mine seat.new) }
    ensures begins { IsPrefix (seen seat.old) (seen seat.new) }
    ensures accepted { IfOk result (λ reply. WasAccepted S.kind S.listed (S.state (first_value row.now).opened.value) (entry_by at me.now seat.old.number command) reply (seen seat.new)) }
    ensures cause { IfErr result (IsCause S.kind S.listed (S.state (first_value row.now).opened.value) (entry_by at me.now seat.old.number command) (known seat.new)) }
{
    match submit_as(rt, row, me, seat, at, command) {
        Ok(reply) => {
            turn.learn(Heard::Reply(&reply));
            Ok(reply)
        }
        Err(SubmitError::Refused(refusal)) => {
            turn.learn(Heard::Refused(&refusal));
            Err(SubmitError::Refused(refusal))
        }
        Err(error) => Err(error),
    }
}
