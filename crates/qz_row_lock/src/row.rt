//! The lock and its seats.
ghost use Rattle.std.specs.Prelude.{◌≡◌, ◌+◌, ◌^◌, ◌<◌, true, false, []};
ghost use Rattle.qz_row_lock.specs.Views.{times, slots_of};

mod calls;
mod steps;

use crate::logged::Logged;
use crate::plays::Rule;
use crate::view::View;
use atomic_table::Table;
use std::alloc::Global;
use std::snapshot::Snapshot;

// A seat at the table of words and slots that the lock stands on.
type Token<V> = atomic_table::Seat<Option<V>, View<<V as Logged>::Entry, <V as Logged>::Ground>>;

/// A lock whose value has a history. It hands its value to one seat at a time, in the order in which the seats ask.
///
/// It is a table of three words that threads share, and of one slot, which holds the value while no seat has it. The
/// words are a mark (twice the length of the history, and one more where the value is shut), the number of tickets that
/// were drawn, and the ticket that is served. Every call has the condition that its seats and notes are of this lock,
/// and that the seats don't have the value; `give` has it that its seat does.
#[derive(Drop)]
pub struct RowLock<V: Logged> {
    rows: Table<Option<V>, View<V::Entry, V::Ground>, Snapshot<V>, Rule<V>, Global>,
    // The table has three words and one slot.
    ghost sized: { (rows.shared.table_id.words ≡ 3) × (rows.shared.table_id.slots ≡ 1) },
}

/// A participant's handle to a lock. Contracts see the history that the seat has `seen`, its own entries in it
/// (`mine`), the numbers `ids` that these bear, and whether the value was `shut` when the seat saw it last. A seat that
/// is dropped keeps its share, so the lock can't be closed after that.
#[derive(Drop)]
pub struct Seat<V: Logged> {
    token: Token<V>,
    /// What the entries bear that the seat adds.
    pub number: u32,
    /// How many further numbers the seat can hand on: those after its own.
    pub more: u32,
    /// The seat's share of the lock. All seats of a lock have 4294967296 together, so a seat that has all is the only
    /// one left.
    pub parts: u64,
    // The public fields are those of the view, and all numbers are below 2^32.
    ghost counts: { (token.me.0.number ≡ number) × (token.me.0.more ≡ more) × (token.me.0.parts ≡ parts) × (more < parts) × (number + more < 2 ^ 32) },
    // Between two calls a seat waits only while it has the turn, has looked after each join, and its own number is one
    // of its ids.
    ghost ready: { (token.me.0.live ≡ true) × (token.me.0.queued ≡ token.me.0.turn) × (token.me.0.joined_ids ≡ []) × (0 < times token.me.0.number token.me.0.ids) },
    // It holds the table's slot just while it has the turn.
    ghost slots: { token.me.1 ≡ slots_of token.me.0.turn },
}

/// What a seat has seen, for another to learn. It has no number and no share, and never takes the value.
#[derive(Drop)]
pub struct Note<V: Logged> {
    token: Token<V>,
    // A note never waits, and has nothing of its own.
    ghost nobody: { (token.me.0.live ≡ true) × (token.me.0.queued ≡ false) × (token.me.0.turn ≡ false) × (token.me.0.joined_ids ≡ []) × (token.me.0.ids ≡ []) × (token.me.0.mine ≡ []) × (token.me.0.parts ≡ 0) },
    ghost slots: { token.me.1 ≡ [] },
}

// Can be named only for what may be sent to a thread.
fn needs_send<T: Send>() {}

// Can be named only for what threads may share.
fn needs_sync<T: Sync>() {}

/// A law, and no work: a lock may be shared by threads, and a lock, its seats and its notes may be sent to them,
/// wherever its value may be sent.
pub fn crosses_threads<V: Logged + Send>() {
    needs_send::<RowLock<V>>();
    needs_sync::<RowLock<V>>();
    needs_send::<Seat<V>>();
    needs_send::<Note<V>>();
}
