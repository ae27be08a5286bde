//! The atomic steps that calls are made of.
ghost use Rattle.std.specs.Prelude.{◌≡◌, ℕ, ◌+◌, ◌*◌, ◌%◌, ◌^◌, ◌<◌, ◌≤◌, ◌++◌, List, [], ◌∷◌, true, false, length, Some, None, MatchBool};
ghost use Rattle.qz_row_lock.specs.Views.{bit, times, NoneBear, GoesOn, after_draw, after_enter, after_leave, after_write};
ghost use Rattle.qz_row_lock.specs.Rows.{Enters, Sees};

use super::{RowLock, Token};
use crate::logged::Logged;
use crate::plays::{Draw, Leave, Look, See, Write};
use std::sync::Wait;

// The word that says the length of the history, and whether the value is shut.
const MARK: usize = 0;

// The number of tickets that were drawn.
const TICKET: usize = 1;

// The ticket that is served.
const SERVING: usize = 2;

impl<V: Logged> RowLock<V> {
    // Draws the next ticket.
    pub(super) fn draw(&self, token: &mut Token<V>) -> u64
        requires of { token.old.table_id ≡ self.now.rows.shared.table_id }
        requires ready { (token.old.me.0.live ≡ true) × (token.old.me.0.queued ≡ false) × (token.old.me.0.turn ≡ false) × (0 < token.old.me.0.parts) }
        ensures of { token.new.table_id ≡ token.old.table_id }
        ensures after_draw { (k : ℕ) × (k % 2 ^ 64 ≡ result) × (token.new.me ≡ (after_draw token.old.me.0 k, token.old.me.1)) }
    {
        self.rows.shared.fetch_add::<Draw<V>>(token, TICKET, 1)
    }

    // Whether the seat's ticket is served. Where it isn't, parks until another turn ends.
    fn look<R: Wait>(&self, rt: &R, token: &mut Token<V>, ticket: u64) -> bool
        requires of { token.old.table_id ≡ self.now.rows.shared.table_id }
        requires ready { (token.old.me.0.live ≡ true) × (token.old.me.0.queued ≡ true) × (token.old.me.0.turn ≡ false) × (token.old.me.0.ticket % 2 ^ 64 ≡ ticket) }
        ensures of { token.new.table_id ≡ token.old.table_id }
        ensures looked { MatchBool result (Enters V.number V.history V.is_shut V.basis token.old.me token.new.me) (token.new.me ≡ token.old.me) }
    {
        let found = self.rows.shared.load::<Look<V>>(token, SERVING);
        if found == ticket {
            return true;
        }
        self.rows
            .shared
            .park(rt, SERVING, (found % 4_294_967_296) as u32);
        false
    }

    // Waits until the seat's ticket is served.
    fn wait<R: Wait>(&self, rt: &R, token: &mut Token<V>, ticket: u64)
        requires of { token.old.table_id ≡ self.now.rows.shared.table_id }
        requires ready { (token.old.me.0.live ≡ true) × (token.old.me.0.queued ≡ true) × (token.old.me.0.turn ≡ false) × (token.old.me.0.ticket % 2 ^ 64 ≡ ticket) }
        ensures of { token.new.table_id ≡ token.old.table_id }
        ensures after_enter { Enters V.number V.history V.is_shut V.basis token.old.me token.new.me }
    {
        'waits: for _ in rt.forever() {
            if self.look(rt, token, ticket) {
                return;
            }
        }
        unreachable!()
    }

    // Waits for the value, and takes it out.
    pub(super) fn enter<R: Wait>(&self, rt: &R, token: &mut Token<V>) -> V
        requires of { token.old.table_id ≡ self.now.rows.shared.table_id }
        requires ready { (token.old.me.0.live ≡ true) × (token.old.me.0.queued ≡ false) × (token.old.me.0.turn ≡ false) × (0 < token.old.me.0.parts) }
        requires empty { token.old.me.1 ≡ [] }
        ensures of { token.new.table_id ≡ token.old.table_id }
        ensures after_enter { (k : ℕ) × (token.new.me ≡ (after_enter (after_draw token.old.me.0 k) (V.history result) (V.is_shut result), (0, None) ∷ [])) }
        ensures basis { token.old.me.0.basis ≡ Some (V.basis result) }
        ensures seen { (later : List V.Entry) × (V.history result ≡ token.old.me.0.seen ++ later) × NoneBear V.number token.old.me.0.ids later }
        ensures shut { token.old.me.0.shut ≡ true → V.is_shut result ≡ true }
    {
        let ticket = self.draw(token);
        self.wait(rt, token, ticket);
        self.rows.shared.exchange(token, 0, None).unwrap()
    }

    // Puts the value back, and ends the turn.
    pub(super) fn leave(&self, token: &mut Token<V>, value: V, mark: u64)
        requires of { token.old.table_id ≡ self.now.rows.shared.table_id }
        requires ready { (token.old.me.0.live ≡ true) × (token.old.me.0.turn ≡ true) × (token.old.me.1 ≡ (0, None) ∷ []) }
        requires written { GoesOn V.number token.old.me.0.number token.old.me.0.seen (V.history value) }
        requires own { 0 < times token.old.me.0.number token.old.me.0.ids }
        requires basis { token.old.me.0.basis ≡ Some (V.basis value) }
        requires shut { token.old.me.0.shut ≡ true → V.is_shut value ≡ true }
        requires mark { mark ≡ 2 * length (V.history value) + bit (V.is_shut value) }
        ensures of { token.new.table_id ≡ token.old.table_id }
        ensures after_leave { (further : List V.Entry) × (V.history value ≡ token.old.me.0.seen ++ further) × (token.new.me ≡ (after_leave (after_write token.old.me.0 (V.history value) (token.old.me.0.mine ++ further) (V.is_shut value)), [])) }
    {
        let old = self.rows.shared.exchange(token, 0, Some(value));
        let None = old else { unreachable!() };
        self.rows.shared.store::<Write<V>>(token, MARK, mark);
        self.rows.shared.fetch_add::<Leave<V>>(token, SERVING, 1);
        self.rows.shared.wake_all(SERVING);
    }

    // Looks at the mark, and so learns the history so far.
    pub(super) fn see(&self, token: &mut Token<V>)
        requires of { token.old.table_id ≡ self.now.rows.shared.table_id }
        requires live { token.old.me.0.live ≡ true }
        ensures of { token.new.table_id ≡ token.old.table_id }
        ensures after_look { Sees V.number V.history V.is_shut V.basis token.old.me token.new.me }
    {
        self.rows.shared.load::<See<V>>(token, MARK);
    }
}
