//! Nodes come and go, while no thread is at work.
ghost use Rattle.std.specs.Prelude.{◌≡◌, ◌∷◌, [], IsTrue, IfOk, OnOk, Ok, Err, Contains, List, ℕ, map};
ghost use Rattle.std.specs.List.{All};
ghost use Rattle.std.specs.declared.result.Result.{Result};
ghost use Rattle.qz_checkin.specs.Entries.{of_states};
ghost use Rattle.qz_checkin.specs.View.{view as states_view};
ghost use Rattle.qz_trigger_store.specs.Entries.{trigger_entry};
ghost use Rattle.qz_trigger_store.specs.View.{view as triggers_view};
ghost use Rattle.qz_types.specs.Rows.{MemberData, is_node};
ghost use Rattle.qz_serve.specs.Going.{KeepOn, Moves, triggers_of, states_of, unit_of};
ghost use Rattle.qz_serve.specs.Names.{ours_of};
ghost use Rattle.qz_serve.specs.Once.{Once};

use crate::both_stores::BothStores;
use crate::entries::{checking_in, forgetting, joining, leaving};
use crate::names::Ours;
use crate::transactions::{ask, tell};
use qz_disk::Disk;
use qz_rounds::SharedClock;
use qz_run::Declined;
use qz_types::{Entry, MemberRow, NoMemory, StateEntry, Text};

impl<D: Disk> BothStores<D> {
    // One transaction of the trigger store.
    fn ask(&mut self, entry: Entry) -> Result<(), Declined>
        ensures once { Once trigger_entry entry result (triggers_view (triggers_of self.old)) (triggers_view (triggers_of self.new)) }
        ensures states { states_of self.new ≡ states_of self.old }
        ensures keeps { KeepOn self.old self.new }
    {
        ask(&mut self.triggers, entry)
    }

    // One of the state store.
    fn tell(&mut self, entry: StateEntry) -> Result<(), Declined>
        ensures once { Once of_states entry result (states_view (states_of self.old)) (states_view (states_of self.new)) }
        ensures triggers { triggers_of self.new ≡ triggers_of self.old }
        ensures keeps { KeepOn self.old self.new }
    {
        tell(&mut self.states, entry)
    }

    /// A node checks in and joins. Where it was a member already, what it had in its hands is recovered.
    pub(crate) fn join<C: SharedClock>(&mut self, clock: &C, name: &Text) -> Result<(), Declined>
        requires { IsTrue (is_node name.now) }
        ensures { (names : List (List ℕ)) → Contains names name.now → Moves (C.shows clock.now) names result self.old self.new }
    {
        let at = clock.now();
        let Ok(node) = name.clone() else {
            return Err(Declined::NoMemory);
        };
        match self.tell(checking_in(at, node)) {
            Ok(()) => self.join_at(clock, at, name),
            Err(why) => Err(why),
        }
    }

    // It has checked in, and joins.
    fn join_at<C: SharedClock>(&mut self, clock: &C, at: i64, name: &Text) -> Result<(), Declined>
        requires name { IsTrue (is_node name.now) }
        requires shown { C.shows clock.now at }
        ensures { (names : List (List ℕ)) → Contains names name.now → Moves (C.shows clock.now) names result self.old self.new }
    {
        let _ = clock;
        match name.clone() {
            Ok(node) => self.ask(joining(at, node)),
            Err(_) => Err(Declined::NoMemory),
        }
    }

    // A node that is a member leaves, under its live epoch.
    fn leave<C: SharedClock>(&mut self, clock: &C, name: &Text) -> Result<(), Declined>
        requires { IsTrue (is_node name.now) }
        ensures { (names : List (List ℕ)) → Contains names name.now → Moves (C.shows clock.now) names result self.old self.new }
    {
        let Some(epoch) = self.epoch_of(name) else {
            return Ok(());
        };
        let Ok(node) = name.clone() else {
            return Err(Declined::NoMemory);
        };
        self.ask(leaving(clock.now(), MemberRow { node, epoch }))
    }

    // The row of a node is removed.
    fn forget<C: SharedClock>(&mut self, clock: &C, name: &Text) -> Result<(), Declined>
        requires { IsTrue (is_node name.now) }
        ensures { (names : List (List ℕ)) → Contains names name.now → Moves (C.shows clock.now) names result self.old self.new }
    {
        let Some(last) = self.last_of(name) else {
            return Ok(());
        };
        let Ok(node) = name.clone() else {
            return Err(Declined::NoMemory);
        };
        self.tell(forgetting(clock.now(), node, last))
    }

    /// A node leaves and is forgotten. One that can't leave, since executions of its own stand, joins anew, by which these are
    /// recovered.
    pub(crate) fn part<C: SharedClock>(&mut self, clock: &C, name: &Text) -> Result<(), Declined>
        requires { IsTrue (is_node name.now) }
        ensures { (names : List (List ℕ)) → Contains names name.now → Moves (C.shows clock.now) names result self.old self.new }
    {
        match self.leave(clock, name) {
            Ok(()) => {
                if self.triggers.store.is_member(name) {
                    self.join(clock, name)
                } else {
                    self.forget(clock, name)
                }
            }
            Err(why) => Err(why),
        }
    }

    // These nodes check in and join, in order.
    fn join_each<C: SharedClock>(&mut self, clock: &C, names: &[Text]) -> Result<(), Declined>
        requires { All (λ name. IsTrue (is_node name)) names.now }
        ensures { Moves (C.shows clock.now) names.now result self.old self.new }
    {
        for name in names {
            match self.join(clock, name) {
                Ok(()) => {}
                Err(why) => return Err(why),
            }
        }
        Ok(())
    }

    // These nodes leave and are forgotten, in order.
    fn part_each<C: SharedClock>(&mut self, clock: &C, names: &[Text]) -> Result<(), Declined>
        requires { All (λ name. IsTrue (is_node name)) names.now }
        ensures { Moves (C.shows clock.now) names.now result self.old self.new }
    {
        for name in names {
            match self.part(clock, name) {
                Ok(()) => {}
                Err(why) => return Err(why),
            }
        }
        Ok(())
    }

    /// All nodes of a call leave and are forgotten.
    pub(crate) fn part_all<C: SharedClock>(
        &mut self,
        clock: &C,
        ours: &Ours,
    ) -> Result<(), Declined>
        ensures { Moves (C.shows clock.now) (ours_of ours.now) result self.old self.new }
    {
        match self.part_each(clock, &ours.nodes) {
            Ok(()) => self.part(clock, &ours.main),
            Err(why) => Err(why),
        }
    }

    /// These nodes check in and join. Their members are answered.
    pub(crate) fn gather<C: SharedClock>(
        &mut self,
        clock: &C,
        names: &[Text],
    ) -> Result<Vec<MemberRow>, Declined>
        requires { All (λ name. IsTrue (is_node name)) names.now }
        ensures moves { Moves (C.shows clock.now) names.now (unit_of result) self.old self.new }
        ensures members { IfOk result (λ members. map (λ (m : MemberData). m.node) members.items ≡ names.now) }
    {
        match self.join_each(clock, names) {
            Ok(()) => match self.members(names) {
                Ok(members) => Ok(members),
                Err(_) => Err(Declined::NoMemory),
            },
            Err(why) => Err(why),
        }
    }

    /// One node checks in and joins, and its member is answered.
    pub(crate) fn enter<C: SharedClock>(
        &mut self,
        clock: &C,
        name: &Text,
    ) -> Result<MemberRow, Declined>
        requires { IsTrue (is_node name.now) }
        ensures moves { Moves (C.shows clock.now) (name.now ∷ []) (unit_of result) self.old self.new }
        ensures member { IfOk result (λ member. member.node ≡ name.now) }
    {
        match self.join(clock, name) {
            Ok(()) => match self.member(name) {
                Ok(member) => Ok(member),
                Err(_) => Err(Declined::NoMemory),
            },
            Err(why) => Err(why),
        }
    }

    // The member of this name, under its live epoch. Where there is none, it is 0, and so fenced.
    fn member(&self, name: &Text) -> Result<MemberRow, NoMemory>
        requires { IsTrue (is_node name.now) }
        ensures { IfOk result (λ member. member.node ≡ name.now) }
    {
        let node = name.clone()?;
        let epoch = self.epoch_of(name).unwrap_or(0);
        Ok(MemberRow { node, epoch })
    }

    fn members(&self, names: &[Text]) -> Result<Vec<MemberRow>, NoMemory>
        requires { All (λ name. IsTrue (is_node name)) names.now }
        ensures { IfOk result (λ members. map (λ (m : MemberData). m.node) members.items ≡ names.now) }
    {
        let mut members = Vec::new(self.alloc);
        for name in names {
            members.push(self.member(name)?)?;
        }
        Ok(members)
    }
}
