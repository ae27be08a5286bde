//! The triggers of a job.
ghost use Rattle.std.specs.Prelude.{◌≡◌, IsPermutation, map};
ghost use Rattle.std.specs.Iterator.{YieldsFirstRef, item_count};
ghost use Rattle.qz_tables.specs.Jobs.{triggers_of};
ghost use Rattle.qz_tables.specs.Links.{linked};
ghost use Rattle.qz_tables.specs.Slots.{rows_at, AreFilled};

use crate::indexed::Indexed;
use crate::tables::Tables;
use qz_types::{Key, TriggerRow};
use std::marker::Model;

/// The triggers of a job that aren't given yet. Contracts see it as their list.
#[derive(Drop)]
pub struct JobTriggers<'a> {
    rows: &'a Indexed<TriggerRow>,
    slots: &'a [usize],
}

impl<'a> Model for JobTriggers<'a> {
    ghost use Rattle.std.specs.Prelude.{List};
    ghost use Rattle.qz_types.specs.Rows.{TriggerData};
    ghost use Rattle.qz_tables.specs.Slots.{rows_at, AreFilled};

    ghost Value = { List TriggerData };

    ghost view = { λ a. rows_at a.rows.now.slots a.slots.now };

    ghost invariant = { λ a. AreFilled a.rows.now.slots a.slots.now };
}

impl<'a> Iterator for JobTriggers<'a> {
    type Item = &'a TriggerRow;

    ghost next_gives = { YieldsFirstRef (λ left. left) };

    ghost remaining = { item_count (λ left. left) };

    fn next(&mut self) -> Option<&'a TriggerRow> {
        let Some((slot, rest)) = self.slots.split_first() else {
            return None;
        };
        let Some(row) = self.rows.at(*slot) else {
            unreachable!()
        };
        self.slots = rest;
        Some(row)
    }
}

impl<'a> JobTriggers<'a> {
    /// The triggers in these slots.
    pub fn new(rows: &'a Indexed<TriggerRow>, slots: &'a [usize]) -> Self
        requires { AreFilled rows.now.slots slots.now }
        ensures { result ≡ rows_at rows.now.slots slots.now }
    {
        JobTriggers { rows, slots }
    }
}

impl Tables {
    /// The triggers of a job, each once, in the order in which they became its triggers.
    pub fn triggers_of<'a>(&'a self, job: &Key) -> JobTriggers<'a>
        ensures links { map (λ t. t.spec.key) result ≡ linked job.now self.now.links }
        ensures rows { IsPermutation (triggers_of job.now self.now.tables.triggers) result }
    {
        self.triggers.of_job(job)
    }
}
