//! What a lock can do.
ghost use Rattle.std.specs.Prelude.{◌≡◌, ℕ, ◌+◌, ◌-◌, ◌*◌, ◌/◌, ◌^◌, ◌<◌, ◌≤◌, ◌++◌, List, [], ◌∷◌, true, false, length, IfOk, IfErr};
ghost use mathlib.Core.List.{IsPrefix};
ghost use Rattle.qz_row_lock.specs.Views.{bit, times, entries_of, GoesOn, first_half, second_half, after_join};
ghost use Rattle.qz_row_lock.specs.Rows.{Sees};
ghost use Rattle.qz_row_lock.specs.Seats.{IsOf, IsNoteOf, Keeps, noted, first_value, seen, mine, ids, shut, is_out};

use super::{Note, RowLock, Seat, Token};
use crate::logged::Logged;
use crate::plays::{Halves, Joined, Notes};
use atomic_table::{Refused, Table};
use std::alloc::{AllocError, AllocFailed, Global};
use std::snapshot::Snapshot;
use std::sync::Wait;

impl<V: Logged> RowLock<V> {
    /// A lock over this value, and its first seat, which has all numbers. This is the only call that takes memory:
    /// where there is none, the value is handed back as it was.
    pub fn new(alloc: Global, value: V) -> Result<(RowLock<V>, Seat<V>), (AllocError, V)>
        requires { length (V.history value) < 2 ^ 63 }
        ensures of { IfOk result (λ r. IsOf r.0 r.1 × (first_value r.0 ≡ value)) }
        ensures knows { IfOk result (λ r. (seen r.1 ≡ V.history value) × (mine r.1 ≡ []) × (ids r.1 ≡ r.1.number ∷ []) × (shut r.1 ≡ V.is_shut value) × (is_out r.1 ≡ false)) }
        ensures counts { IfOk result (λ r. (r.1.number ≡ 0) × (r.1.more ≡ 4294967295) × (r.1.parts ≡ 4294967296)) }
        ensures err { IfErr result (λ e. e.1 ≡ value) }
    {
        let key = Snapshot::of(&value);
        let mark = mark_of(&value);
        let mut slots = Vec::new(alloc);
        if let Err(AllocFailed { value }) = slots.push(Some(value)) {
            slots.destroy_empty();
            return Err((AllocError, value.unwrap()));
        }
        match Table::new(alloc, &[mark, 0, 0], slots, &key) {
            Ok((rows, token)) => Ok((
                RowLock { rows },
                Seat {
                    token,
                    number: 0,
                    more: u32::MAX,
                    parts: 4_294_967_296,
                },
            )),
            Err(Refused { mut slots }) => {
                let value = slots.pop().unwrap().unwrap();
                slots.destroy_empty();
                Err((AllocError, value))
            }
        }
    }

    /// Waits until the value is this seat's turn, and takes it. Its history begins with all that the seat had seen. It
    /// can't fail; that it ever returns isn't promised, since another seat may keep the value. A caller that adds an
    /// entry reads `seat.number` before, and lets the entry bear it.
    pub fn take<R: Wait>(&self, rt: &R, seat: &mut Seat<V>) -> V
        requires of { IsOf self.now seat.old }
        requires home { is_out seat.old ≡ false }
        ensures of { IsOf self.now seat.new }
        ensures begins { IsPrefix (seen seat.old) (V.history result) }
        ensures basis { V.basis result ≡ V.basis (first_value self.now) }
        ensures seen { seen seat.new ≡ V.history result }
        ensures shut { shut seat.new ≡ V.is_shut result }
        ensures stays_shut { shut seat.old ≡ true → V.is_shut result ≡ true }
        ensures keeps { Keeps seat.old seat.new }
        ensures out { is_out seat.new ≡ true }
    {
        self.enter(rt, &mut seat.token)
    }

    /// Gives back the value that this seat took: with its history as it was, and after that any entries that bear the
    /// seat's number. Wakes who waits.
    pub fn give(&self, seat: &mut Seat<V>, value: V)
        requires of { IsOf self.now seat.old }
        requires out { is_out seat.old ≡ true }
        requires goes_on { GoesOn V.number seat.old.number (seen seat.old) (V.history value) }
        requires basis { V.basis value ≡ V.basis (first_value self.now) }
        requires shut { shut seat.old ≡ true → V.is_shut value ≡ true }
        requires room { length (V.history value) < 2 ^ 63 }
        ensures of { IsOf self.now seat.new }
        ensures seen { seen seat.new ≡ V.history value }
        ensures mine { (further : List V.Entry) → V.history value ≡ seen seat.old ++ further → mine seat.new ≡ mine seat.old ++ further }
        ensures ids { (ids seat.new ≡ ids seat.old) × (seat.new.number ≡ seat.old.number) × (seat.new.more ≡ seat.old.more) × (seat.new.parts ≡ seat.old.parts) }
        ensures shut { shut seat.new ≡ V.is_shut value }
        ensures home { is_out seat.new ≡ false }
    {
        let mark = mark_of(&value);
        self.leave(&mut seat.token, value, mark);
    }

    /// Splits a seat in two. The first keeps number, `ids` and `mine`. The second gets half of the numbers that could
    /// be handed on, rounded up; the first of them is its own.
    pub fn split(&self, seat: Seat<V>) -> (Seat<V>, Seat<V>)
        requires of { IsOf self.now seat }
        requires home { is_out seat ≡ false }
        requires more { 1 ≤ seat.more }
        ensures of { IsOf self.now result.0 × IsOf self.now result.1 }
        ensures home { (is_out result.0 ≡ false) × (is_out result.1 ≡ false) }
        ensures seen { (seen result.0 ≡ seen seat) × IsPrefix (seen seat) (seen result.1) }
        ensures first { (result.0.number ≡ seat.number) × (ids result.0 ≡ ids seat) × (mine result.0 ≡ mine seat) }
        ensures second { (result.1.number ≡ seat.number + seat.more / 2 + 1) × (ids result.1 ≡ result.1.number ∷ []) × (mine result.1 ≡ []) }
        ensures shut { (shut result.0 ≡ shut seat) × (shut seat ≡ true → shut result.1 ≡ true) }
        ensures counts { (result.0.more ≡ seat.more / 2) × (result.1.more ≡ (seat.more + 1) / 2 - 1) × (result.1.parts ≡ (seat.more + 1) / 2) × (result.0.parts + result.1.parts ≡ seat.parts) }
    {
        let Seat {
            mut token,
            number,
            more,
            parts,
        } = seat;
        let other = self.halve(&mut token);
        let kept = more / 2;
        let given = more - kept;
        (
            Seat {
                token,
                number,
                more: kept,
                parts: parts - u64::from(given),
            },
            Seat {
                token: other,
                number: number + kept + 1,
                more: given - 1,
                parts: u64::from(given),
            },
        )
    }

    // Splits off the second half, which looks at the history.
    fn halve(&self, token: &mut Token<V>) -> Token<V>
        requires of { token.old.table_id ≡ self.now.rows.shared.table_id }
        requires ready { (token.old.me.0.live ≡ true) × (token.old.me.0.queued ≡ false) × (token.old.me.0.turn ≡ false) × (token.old.me.0.joined_ids ≡ []) }
        requires more { (0 < token.old.me.0.more) × (token.old.me.0.more < token.old.me.0.parts) }
        ensures of { (token.new.table_id ≡ token.old.table_id) × (result.table_id ≡ token.old.table_id) }
        ensures first { token.new.me ≡ (first_half token.old.me.0, token.old.me.1) }
        ensures second { Sees V.number V.history V.is_shut V.basis (second_half token.old.me.0, []) result.me }
    {
        let mut other = self.rows.shared.split_seat::<Halves>(token);
        self.see(&mut other);
        other
    }

    /// Makes one seat of two. It has seen what both had seen, and has the entries and the shares of both. The second's
    /// number is handed on no more.
    pub fn join(&self, seat: Seat<V>, other: Seat<V>) -> Seat<V>
        requires of { IsOf self.now seat × IsOf self.now other }
        requires home { (is_out seat ≡ false) × (is_out other ≡ false) }
        ensures of { IsOf self.now result }
        ensures home { is_out result ≡ false }
        ensures seen { IsPrefix (seen seat) (seen result) × IsPrefix (seen other) (seen result) }
        ensures ids { ids result ≡ ids seat ++ ids other }
        ensures once { (x : ℕ) → times x (ids result) ≤ 1 }
        ensures mine { (entries_of V.number (ids seat) (mine result) ≡ mine seat) × (entries_of V.number (ids other) (mine result) ≡ mine other) }
        ensures shut { shut seat ≡ true → shut result ≡ true }
        ensures shut_other { shut other ≡ true → shut result ≡ true }
        ensures counts { (result.number ≡ seat.number) × (result.more ≡ seat.more) × (result.parts ≡ seat.parts + other.parts) }
    {
        let Seat {
            mut token,
            number,
            more,
            parts,
        } = seat;
        let Seat {
            token: theirs,
            number: _,
            more: _,
            parts: their_parts,
        } = other;
        self.hear(&mut token, theirs);
        Seat {
            token,
            number,
            more,
            parts: parts + their_parts,
        }
    }

    /// A note of what the seat has seen, for a seat elsewhere to learn.
    pub fn tell(&self, seat: &mut Seat<V>) -> Note<V>
        requires of { IsOf self.now seat.old }
        requires home { is_out seat.old ≡ false }
        ensures of { IsOf self.now seat.new × IsNoteOf self.now result }
        ensures home { is_out seat.new ≡ false }
        ensures seen { (seen seat.new ≡ seen seat.old) × (noted result ≡ seen seat.old) }
        ensures shut { shut seat.new ≡ shut seat.old }
        ensures keeps { Keeps seat.old seat.new }
    {
        let token = self.rows.shared.split_seat::<Notes>(&mut seat.token);
        Note { token }
    }

    /// Learns a note: afterwards the seat has seen what the note has, and no less than before.
    pub fn learn(&self, seat: &mut Seat<V>, note: Note<V>)
        requires of { IsOf self.now seat.old × IsNoteOf self.now note }
        requires home { is_out seat.old ≡ false }
        ensures of { IsOf self.now seat.new }
        ensures home { is_out seat.new ≡ false }
        ensures seen { IsPrefix (seen seat.old) (seen seat.new) × IsPrefix (noted note) (seen seat.new) }
        ensures shut { shut seat.old ≡ true → shut seat.new ≡ true }
        ensures keeps { Keeps seat.old seat.new }
    {
        let Note { token } = note;
        self.hear(&mut seat.token, token);
    }

    // Joins another token into this one, which then looks at the history.
    fn hear(&self, token: &mut Token<V>, other: Token<V>)
        requires of { (token.old.table_id ≡ self.now.rows.shared.table_id) × (other.table_id ≡ self.now.rows.shared.table_id) × (other.me.1 ≡ []) }
        requires ready { (token.old.me.0.live ≡ true) × (token.old.me.0.joined_ids ≡ []) × (other.me.0.live ≡ true) × (other.me.0.queued ≡ false) × (other.me.0.turn ≡ false) × (other.me.0.joined_ids ≡ []) }
        ensures of { token.new.table_id ≡ token.old.table_id }
        ensures heard { Sees V.number V.history V.is_shut V.basis (after_join token.old.me.0 other.me.0, token.old.me.1) token.new.me }
    {
        self.rows.shared.join_seat::<Joined>(token, other);
        self.see(token);
    }

    /// Ends the lock, and gives its value. All other seats were joined into this one, which so has all entries that
    /// were ever added.
    pub fn close(self, seat: Seat<V>) -> V
        requires of { IsOf self seat }
        requires home { is_out seat ≡ false }
        requires all { seat.parts ≡ 4294967296 }
        ensures begins { IsPrefix (seen seat) (V.history result) }
        ensures mine { V.history result ≡ V.history (first_value self) ++ mine seat }
        ensures basis { V.basis result ≡ V.basis (first_value self) }
        ensures stays_shut { shut seat ≡ true → V.is_shut result ≡ true }
    {
        let Seat {
            token,
            number: _,
            more: _,
            parts: _,
        } = seat;
        let RowLock { rows } = self;
        let mut closed = rows.close_with(token);
        let value = closed.take(0);
        closed.free();
        value.unwrap()
    }
}

// Twice the length of the history, and one more where the value is shut.
fn mark_of<V: Logged>(value: &V) -> u64
    requires { length (V.history value.now) < 2 ^ 63 }
    ensures { result ≡ 2 * length (V.history value.now) + bit (V.is_shut value.now) }
{
    2 * value.entries() + u64::from(value.shut())
}
