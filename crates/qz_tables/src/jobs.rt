//! The jobs of the tables.
ghost use Rattle.std.specs.Prelude.{◌≡◌, ◌≤◌, ◌<◌, ◌+◌, None, Some, IsSome, IfSome, IfNone, OnSome, IfOk, option_copied, length, map, slice_get};
ghost use Rattle.qz_types.specs.Sorted.{IsAscending};
ghost use Rattle.qz_types.specs.Words.{key_cmp, job_of, put_job, without_job, with_job};
ghost use Rattle.qz_tables.specs.Contents.{KeepsSpare, one_job};

use crate::tables::Tables;
use qz_types::{JobRow, Key, NoMemory};
use std::alloc::Global;

impl Tables {
    /// The job of this key.
    #[tactic(auto, unfolding(qz_types::specs::Words::job_of))]
    pub fn get_job(&self, key: &Key) -> Option<&JobRow>
        ensures row { option_copied result ≡ job_of key.now self.now.tables.jobs }
        ensures sorted { IsAscending key_cmp (λ r. r.key) self.now.tables.jobs }
    {
        self.jobs.get(key)
    }

    /// The job at this place in the order of the keys, counted from 0.
    pub fn nth_job(&self, place: usize) -> Option<&JobRow>
        ensures { option_copied result ≡ slice_get self.now.tables.jobs place }
    {
        self.jobs.nth(place)
    }

    /// How many jobs there are.
    pub fn len_jobs(&self) -> usize
        ensures { result ≡ length self.now.tables.jobs }
    {
        self.jobs.len()
    }

    /// The jobs in the order of the keys.
    pub fn sorted_jobs(&self, alloc: Global) -> Result<Vec<&JobRow>, NoMemory>
        ensures { IfOk result (λ rows. map (λ r. r.now) rows.items ≡ self.now.tables.jobs) }
    {
        Ok(self.jobs.sorted(alloc)?)
    }

    /// Puts in a job of a new key, in the room that is left.
    #[tactic(auto, unfolding(qz_types::specs::Words::job_of, qz_types::specs::Words::put_job))]
    pub fn insert_job(&mut self, row: JobRow)
        requires absent { job_of row.key self.old.tables.jobs ≡ None }
        requires room { 0 < self.old.spare.jobs }
        ensures tables { self.new.tables ≡ record self.old.tables { jobs = put_job row self.old.tables.jobs } }
        ensures links { self.new.links ≡ self.old.links }
        ensures spare { KeepsSpare self.old.spare (one_job self.new.spare) }
    {
        self.jobs.insert(row);
    }

    /// Takes out the job of this key.
    #[tactic(auto, unfolding(qz_types::specs::Words::job_of, qz_types::specs::Words::without_job, qz_types::specs::Words::same_key))]
    pub fn remove_job(&mut self, key: &Key) -> Option<JobRow>
        ensures row { result ≡ job_of key.now self.old.tables.jobs }
        ensures tables { self.new.tables ≡ record self.old.tables { jobs = without_job key.now self.old.tables.jobs } }
        ensures links { self.new.links ≡ self.old.links }
        ensures spare { KeepsSpare self.old.spare self.new.spare }
        ensures freed { OnSome result (KeepsSpare (one_job self.old.spare) self.new.spare) }
    {
        self.jobs.remove(key)
    }

    /// Puts a job in place of that of its key, and gives the old one.
    #[tactic(auto, unfolding(qz_types::specs::Words::job_of, qz_types::specs::Words::with_job, qz_types::specs::Words::same_key))]
    pub fn change_job(&mut self, row: JobRow) -> JobRow
        requires { IsSome (job_of row.key self.old.tables.jobs) }
        ensures row { Some result ≡ job_of row.key self.old.tables.jobs }
        ensures tables { self.new.tables ≡ record self.old.tables { jobs = with_job row.key (λ _. row) self.old.tables.jobs } }
        ensures links { self.new.links ≡ self.old.links }
        ensures spare { KeepsSpare self.old.spare self.new.spare }
    {
        let (_, old) = self.jobs.change(row);
        old
    }
}
