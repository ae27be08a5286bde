//! The paused groups of jobs of the tables.
ghost use Rattle.std.specs.Prelude.{◌≡◌, ◌≤◌, ◌<◌, ◌+◌, None, Some, IsSome, IfSome, IfNone, OnSome, IfOk, option_copied, length, map, slice_get};
ghost use Rattle.qz_types.specs.Sorted.{IsAscending};
ghost use Rattle.qz_types.specs.Words.{text_cmp, group_of, put_group, without_group};
ghost use Rattle.qz_tables.specs.Contents.{KeepsSpare, one_job_group};

use crate::tables::Tables;
use qz_types::{NoMemory, Text};
use std::alloc::Global;

impl Tables {
    /// The paused group of jobs of this name.
    #[tactic(auto, unfolding(qz_types::specs::Words::group_of))]
    pub fn get_job_group(&self, group: &Text) -> Option<&Text>
        ensures row { option_copied result ≡ group_of group.now self.now.tables.paused_job_groups }
        ensures sorted { IsAscending text_cmp (λ r. r) self.now.tables.paused_job_groups }
    {
        self.paused_job_groups.get(group)
    }

    /// The paused group of jobs at this place in the order of the names, counted from 0.
    pub fn nth_job_group(&self, place: usize) -> Option<&Text>
        ensures { option_copied result ≡ slice_get self.now.tables.paused_job_groups place }
    {
        self.paused_job_groups.nth(place)
    }

    /// How many groups of jobs are paused.
    pub fn len_job_groups(&self) -> usize
        ensures { result ≡ length self.now.tables.paused_job_groups }
    {
        self.paused_job_groups.len()
    }

    /// The paused groups of jobs in the order of the names.
    pub fn sorted_job_groups(&self, alloc: Global) -> Result<Vec<&Text>, NoMemory>
        ensures { IfOk result (λ rows. map (λ r. r.now) rows.items ≡ self.now.tables.paused_job_groups) }
    {
        Ok(self.paused_job_groups.sorted(alloc)?)
    }

    /// Puts in a paused group of jobs of a new name, in the room that is left.
    #[tactic(auto, unfolding(qz_types::specs::Words::group_of, qz_types::specs::Words::put_group))]
    pub fn insert_job_group(&mut self, row: Text)
        requires absent { group_of row self.old.tables.paused_job_groups ≡ None }
        requires room { 0 < self.old.spare.paused_job_groups }
        ensures tables { self.new.tables ≡ record self.old.tables { paused_job_groups = put_group row self.old.tables.paused_job_groups } }
        ensures links { self.new.links ≡ self.old.links }
        ensures spare { KeepsSpare self.old.spare (one_job_group self.new.spare) }
    {
        self.paused_job_groups.insert(row);
    }

    /// Takes out the paused group of jobs of this name.
    #[tactic(auto, unfolding(qz_types::specs::Words::group_of, qz_types::specs::Words::without_group, qz_types::specs::Words::same_text))]
    pub fn remove_job_group(&mut self, group: &Text) -> Option<Text>
        ensures row { result ≡ group_of group.now self.old.tables.paused_job_groups }
        ensures tables { self.new.tables ≡ record self.old.tables { paused_job_groups = without_group group.now self.old.tables.paused_job_groups } }
        ensures links { self.new.links ≡ self.old.links }
        ensures spare { KeepsSpare self.old.spare self.new.spare }
        ensures freed { OnSome result (KeepsSpare (one_job_group self.old.spare) self.new.spare) }
    {
        self.paused_job_groups.remove(group)
    }
}
