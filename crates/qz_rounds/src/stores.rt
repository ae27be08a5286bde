//! The stores that nodes share.
use qz_shared::RowStore;
use qz_types::{Entry, Evidence, NoMemory, Reply, StateEntry, Text};

/// A trigger store, as the threads of nodes share it.
pub trait NodeStore: RowStore<Entry = Entry, Reply = Reply> {
    ghost use Rattle.std.specs.Prelude.{◌≡◌, ℤ, Bool, false, int_le, Ok, MatchOption};
    ghost use Rattle.qz_types.specs.Entries.{EntryData};
    ghost use Rattle.qz_types.specs.declared.replies.Reply.{Reply as Replied};
    ghost use Rattle.qz_node.specs.Hubs.{IsReplyTo};

    /// Whether a trigger waits whose next time isn't past this moment.
    ghost due_by: { Self → ℤ → Bool };

    /// The least next time of a WAITING trigger, in ms since 1970-01-01T00:00:00Z. Takes no memory.
    fn next_due(&self) -> Option<i64>
        ensures { MatchOption result ((t : ℤ) → due_by self.now t ≡ false) (λ next. (t : ℤ) → due_by self.now t ≡ int_le next t) };

    /// The history alone tells what is due.
    ghost due_by_history: { (s t : Self) (moment : ℤ) → (Self.state s).history ≡ (Self.state t).history → due_by s moment ≡ due_by t moment };

    /// An entry bears the number of its seat.
    ghost is_seat: { (e : EntryData) → Self.seat_of e ≡ e.seat };

    /// Every entry may be submitted.
    ghost all_proper: { (e : EntryData) → Self.IsProper e };

    /// A reply belongs to its command.
    ghost replies_fit: { (h : Self.RowStore.History) (e : EntryData) (r : Replied) → Self.kind.answer h e ≡ Ok r → IsReplyTo e.command r };
}

/// A state store, as the threads of nodes share it.
pub trait RoundStore: RowStore<Entry = StateEntry, Reply = ()> {
    ghost use Rattle.std.specs.Prelude.{◌≡◌, ℕ, ℤ, List, Err, IfOk};
    ghost use Rattle.qz_types.specs.Entries.{StateEntryData};
    ghost use Rattle.qz_types.specs.declared.replies.Refusal.{Refusal};
    ghost use Rattle.qz_types.specs.declared.replies.Refusal.TheVariants.{RowsFull};
    ghost use Rattle.qz_types.specs.declared.states.StateCommand.TheVariants.{CheckIn};
    ghost use Rattle.qz_checkin.specs.Rows.{StateTables, state_moment};
    ghost use Rattle.qz_checkin.specs.Lateness.{failed_by};

    /// Its rows.
    ghost tables: { Self → StateTables };

    /// The recorded moment of its last transaction, in ms since 1970-01-01T00:00:00Z; 0 before the first one.
    fn last_moment(&self) -> i64
        ensures { result ≡ (tables self.now).last_moment };

    /// Why the first node, in the order of names, is taken for failed that is late for the node `own` at this reading, in
    /// ms since 1970-01-01T00:00:00Z. None where no node is late.
    fn failed(&self, at: i64, own: &Text) -> Result<Option<Evidence>, NoMemory>
        ensures { IfOk result (λ found. found ≡ failed_by (tables self.now) (state_moment (tables self.now) at) own.now) };

    /// The history alone tells the rows.
    ghost tables_by_history: { (s t : Self) → (Self.state s).history ≡ (Self.state t).history → tables s ≡ tables t };

    /// A check-in is refused for want of a row alone.
    ghost check_in_refused: { (h : Self.RowStore.History) (e : StateEntryData) (node : List ℕ) (interval : ℤ) (refusal : Refusal) → e.command ≡ CheckIn node interval → Self.kind.answer h e ≡ Err refusal → refusal ≡ RowsFull };

    /// An entry bears the number of its seat.
    ghost is_seat: { (e : StateEntryData) → Self.seat_of e ≡ e.seat };

    /// Every entry may be submitted.
    ghost all_proper: { (e : StateEntryData) → Self.IsProper e };
}
