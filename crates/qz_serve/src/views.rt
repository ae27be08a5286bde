//! What the stores show of a call's nodes.
ghost use Rattle.std.specs.Prelude.{◌≡◌, ◌⊎◌, true, option_map, Some, None};
ghost use Rattle.std.specs.List.{All};
ghost use Rattle.qz_checkin.specs.History.{replay_states};
ghost use Rattle.qz_checkin.specs.Rows.{state_of};
ghost use Rattle.qz_checkin.specs.View.{view as states_view};
ghost use Rattle.qz_model.specs.History.{replay};
ghost use Rattle.qz_seen.specs.Seen.{some_due};
ghost use Rattle.qz_trigger_store.specs.View.{view as triggers_view};
ghost use Rattle.qz_types.specs.Words.{member_of};
ghost use Rattle.qz_serve.specs.Courses.{AreBothOpen, IsGone, IsOver, OneIsClosed};
ghost use Rattle.qz_serve.specs.Going.{state_of_both, triggers_of, states_of};
ghost use Rattle.qz_serve.specs.Keeping.{Kept};
ghost use Rattle.qz_serve.specs.Names.{ours_of};

use crate::both_stores::BothStores;
use crate::names::Ours;
use qz_disk::Disk;
use qz_rounds::{NodeStore, SharedClock};
use qz_run::Declined;
use qz_types::Text;

impl<D: Disk> BothStores<D> {
    /// A law, and no work: stores to which nothing was done have kept all.
    pub(crate) fn keep_all(&self)
        ensures { Kept self.now self.now }
    {}

    /// The epoch under which a node is a member.
    pub(crate) fn epoch_of(&self, name: &Text) -> Option<u64>
        ensures { result ≡ option_map (λ member. member.epoch) (member_of name.now (replay (triggers_view (triggers_of self.now)).history).members) }
    {
        match self.triggers.store.tables().get_member(name) {
            Some(member) => Some(member.epoch),
            None => None,
        }
    }

    /// When a node checked in last, in ms since 1970-01-01T00:00:00Z, where it has a state row.
    pub(crate) fn last_of(&self, name: &Text) -> Option<i64>
        ensures { result ≡ option_map (λ row. row.last) (state_of name.now (replay_states (states_view (states_of self.now)).history).rows) }
    {
        match self.states.store.row(name) {
            Some(row) => Some(row.last),
            None => None,
        }
    }

    /// Why the work ends after some nodes worked and told this cause. Whether a disk failed is seen of the stores: one of them is
    /// closed then.
    pub(crate) fn cause_now(&self, told: Option<Declined>) -> Option<Declined>
        requires closed { told ≡ Some Declined.Fault → OneIsClosed (state_of_both self.now) }
        ensures both_open { result ≡ None → AreBothOpen (state_of_both self.now) }
        ensures fault { result ≡ Some Declined.Fault → OneIsClosed (state_of_both self.now) }
        ensures same { (result ≡ Some Declined.Fault) ⊎ (result ≡ told) }
        ensures none { result ≡ None → told ≡ None }
    {
        if self.triggers.store.closed() || self.states.store.closed() {
            return Some(Declined::Fault);
        }
        told
    }

    // Whether a trigger waits whose next time isn't past this moment.
    fn is_due(&self, until: i64) -> bool
        ensures { result ≡ some_due (replay (triggers_view (triggers_of self.now)).history) until }
    {
        match self.triggers.next_due() {
            Some(next) => next <= until,
            None => false,
        }
    }

    // Whether the node is no member and has no state row. Then it has no fired row either.
    fn is_gone(&self, name: &Text) -> bool
        ensures { result ≡ true → IsGone (state_of_both self.now) name.now }
    {
        !self.triggers.store.is_member(name) && self.states.store.row(name).is_none()
    }

    fn are_gone(&self, names: &[Text]) -> bool
        ensures { result ≡ true → All (IsGone (state_of_both self.now)) names.now }
    {
        for name in names {
            if !self.is_gone(name) {
                return false;
            }
        }
        true
    }

    /// Whether a call's work is over: the clock reads no less than its end, nothing is due by then, and all of its nodes are
    /// gone.
    pub(crate) fn is_over<C: SharedClock>(&self, clock: &C, until: i64, ours: &Ours) -> bool
        ensures { result ≡ true → IsOver (C.shows clock.now) until (ours_of ours.now) (state_of_both self.now) }
    {
        let reading = clock.now();
        if reading < until {
            return false;
        }
        if self.is_due(until) {
            return false;
        }
        self.are_gone(&ours.nodes) && self.is_gone(&ours.main)
    }
}
