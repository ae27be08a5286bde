//! The paused groups of triggers of the tables.
ghost use Rattle.std.specs.Prelude.{◌≡◌, ◌≤◌, ◌<◌, ◌+◌, None, Some, IsSome, IfSome, IfNone, OnSome, IfOk, option_copied, length, map, slice_get};
ghost use Rattle.qz_types.specs.Sorted.{IsAscending};
ghost use Rattle.qz_types.specs.Words.{text_cmp, group_of, put_group, without_group};
ghost use Rattle.qz_tables.specs.Contents.{KeepsSpare, one_group};

use crate::tables::Tables;
use qz_types::{NoMemory, Text};
use std::alloc::Global;

impl Tables {
    /// The paused group of this name.
    #[tactic(auto, unfolding(qz_types::specs::Words::group_of))]
    pub fn get_group(&self, group: &Text) -> Option<&Text>
        ensures row { option_copied result ≡ group_of group.now self.now.tables.paused_groups }
        ensures sorted { IsAscending text_cmp (λ r. r) self.now.tables.paused_groups }
    {
        self.paused_groups.get(group)
    }

    /// The paused group at this place in the order of the names, counted from 0.
    pub fn nth_group(&self, place: usize) -> Option<&Text>
        ensures { option_copied result ≡ slice_get self.now.tables.paused_groups place }
    {
        self.paused_groups.nth(place)
    }

    /// How many paused groups there are.
    pub fn len_groups(&self) -> usize
        ensures { result ≡ length self.now.tables.paused_groups }
    {
        self.paused_groups.len()
    }

    /// The paused groups in the order of the names.
    pub fn sorted_groups(&self, alloc: Global) -> Result<Vec<&Text>, NoMemory>
        ensures { IfOk result (λ rows. map (λ r. r.now) rows.items ≡ self.now.tables.paused_groups) }
    {
        Ok(self.paused_groups.sorted(alloc)?)
    }

    /// Puts in a paused group of a new name, in the room that is left.
    #[tactic(auto, unfolding(qz_types::specs::Words::group_of, qz_types::specs::Words::put_group))]
    pub fn insert_group(&mut self, row: Text)
        requires absent { group_of row self.old.tables.paused_groups ≡ None }
        requires room { 0 < self.old.spare.paused_groups }
        ensures tables { self.new.tables ≡ record self.old.tables { paused_groups = put_group row self.old.tables.paused_groups } }
        ensures links { self.new.links ≡ self.old.links }
        ensures spare { KeepsSpare self.old.spare (one_group self.new.spare) }
    {
        self.paused_groups.insert(row);
    }

    /// Takes out the paused group of this name.
    #[tactic(auto, unfolding(qz_types::specs::Words::group_of, qz_types::specs::Words::without_group, qz_types::specs::Words::same_text))]
    pub fn remove_group(&mut self, group: &Text) -> Option<Text>
        ensures row { result ≡ group_of group.now self.old.tables.paused_groups }
        ensures tables { self.new.tables ≡ record self.old.tables { paused_groups = without_group group.now self.old.tables.paused_groups } }
        ensures links { self.new.links ≡ self.old.links }
        ensures spare { KeepsSpare self.old.spare self.new.spare }
        ensures freed { OnSome result (KeepsSpare (one_group self.old.spare) self.new.spare) }
    {
        self.paused_groups.remove(group)
    }
}
