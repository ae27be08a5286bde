//! Changes of the rows that pass a test, which take no memory.
ghost use Rattle.std.specs.Prelude.{◌≡◌, ◌&&◌, ◌==◌, not, filter, map, length, IfSome, IsTrue};
ghost use Rattle.qz_civil.specs.Fields.{is_year_set};
ghost use Rattle.qz_types.specs.Changes.{with_state, with_states, moved_trigger, without_acquired};
ghost use Rattle.qz_types.specs.Rows.{is_trigger};
ghost use Rattle.qz_types.specs.States.{resumed};
ghost use Rattle.qz_types.specs.Words.{is_paused, same_key, same_text, trigger_of, with_trigger};
ghost use Rattle.qz_tables.specs.Changes.{changed};
ghost use Rattle.qz_tables.specs.Contents.{KeepsSpare};
ghost use Rattle.qz_tables.specs.Links.{KeepsLinks, KeepsOtherLinks};
ghost use Rattle.qz_tables.specs.Years.{trigger_with_years, calendar_with_years};

use crate::edits::{StateChange, TriggerEdit, YearChange};
use crate::row_tests::{
    AcquiredOf, AcquiredOfGroup, AcquiredOfJob, AcquiredOfJobGroup, OfGroup, OfGroupOnly,
    OfJobGroup, OfJobGroupOnly, OfMember,
};
use crate::tables::Tables;
use qz_civil::Moved;
use qz_types::{Key, Text};

impl Tables {
    /// Changes the state of the trigger of this key, if it is stored.
    #[tactic(auto, unfolding(qz_types::specs::Words::with_trigger, qz_types::specs::Words::same_key))]
    pub fn change_state(&mut self, key: &Key, change: StateChange)
        ensures tables { self.new.tables ≡ record self.old.tables { triggers = with_trigger key.now (with_state (changed change)) self.old.tables.triggers } }
        ensures links { KeepsLinks self.old.links self.new.links }
        ensures spare { KeepsSpare self.old.spare self.new.spare }
    {
        self.triggers.edit(key, &TriggerEdit::State(change));
    }

    /// Changes the states of a job's triggers.
    pub fn change_job_states(&mut self, job: &Key, change: StateChange)
        ensures tables { self.new.tables ≡ record self.old.tables { triggers = with_states (changed change) (λ t. same_key job.now t.spec.job) self.old.tables.triggers } }
        ensures links { KeepsLinks self.old.links self.new.links }
        ensures spare { KeepsSpare self.old.spare self.new.spare }
    {
        self.triggers.change_job(job, change);
    }

    /// Changes the states of the triggers of a group.
    ///
    /// It looks at every trigger.
    pub fn change_group_states(&mut self, group: &Text, change: StateChange)
        ensures tables { self.new.tables ≡ record self.old.tables { triggers = with_states (changed change) (λ t. same_text group.now t.spec.key.group) self.old.tables.triggers } }
        ensures links { KeepsLinks self.old.links self.new.links }
        ensures spare { KeepsSpare self.old.spare self.new.spare }
    {
        self.triggers.change_states(&OfGroup { group }, change);
    }

    /// Resumes the triggers of a group, but those whose job's group is paused.
    ///
    /// It looks at every trigger.
    pub fn resume_group_states(&mut self, group: &Text)
        ensures tables { self.new.tables ≡ record self.old.tables { triggers = with_states resumed (λ t. same_text group.now t.spec.key.group && not (is_paused t.spec.job.group self.old.tables.paused_job_groups)) self.old.tables.triggers } }
        ensures links { KeepsLinks self.old.links self.new.links }
        ensures spare { KeepsSpare self.old.spare self.new.spare }
    {
        let test = OfGroupOnly {
            group,
            paused_job_groups: &self.paused_job_groups,
        };
        self.triggers.change_states(&test, StateChange::Resume);
    }

    /// Changes the states of the triggers of a group's jobs.
    ///
    /// It looks at every trigger.
    pub fn change_job_group_states(&mut self, group: &Text, change: StateChange)
        ensures tables { self.new.tables ≡ record self.old.tables { triggers = with_states (changed change) (λ t. same_text group.now t.spec.job.group) self.old.tables.triggers } }
        ensures links { KeepsLinks self.old.links self.new.links }
        ensures spare { KeepsSpare self.old.spare self.new.spare }
    {
        self.triggers.change_states(&OfJobGroup { group }, change);
    }

    /// Resumes the triggers of a group's jobs, but those whose own group is paused.
    ///
    /// It looks at every trigger.
    pub fn resume_job_group_states(&mut self, group: &Text)
        ensures tables { self.new.tables ≡ record self.old.tables { triggers = with_states resumed (λ t. same_text group.now t.spec.job.group && not (is_paused t.spec.key.group self.old.tables.paused_groups)) self.old.tables.triggers } }
        ensures links { KeepsLinks self.old.links self.new.links }
        ensures spare { KeepsSpare self.old.spare self.new.spare }
    {
        let test = OfJobGroupOnly {
            group,
            paused_groups: &self.paused_groups,
        };
        self.triggers.change_states(&test, StateChange::Resume);
    }

    /// Gives the cron triggers and cron calendars that have just the old years the new ones.
    ///
    /// It looks at every trigger and every calendar.
    pub fn change_years(&mut self, change: &YearChange)
        requires { IsTrue (is_year_set change.now.new) }
        ensures tables { self.new.tables ≡ record self.old.tables { triggers = map (trigger_with_years change.now) self.old.tables.triggers; calendars = map (calendar_with_years change.now) self.old.tables.calendars } }
        ensures links { KeepsLinks self.old.links self.new.links }
        ensures spare { KeepsSpare self.old.spare self.new.spare }
    {
        self.triggers.edit_all(&TriggerEdit::Years(*change));
        self.calendars.edit_all(change);
    }

    /// A misfire makes this of the trigger of this key, if it is stored.
    #[tactic(auto, unfolding(qz_types::specs::Words::with_trigger, qz_types::specs::Words::trigger_of, qz_types::specs::Words::same_key))]
    pub fn move_trigger(&mut self, key: &Key, moved: &Moved)
        requires { IfSome (trigger_of key.now self.old.tables.triggers) (λ t. IsTrue (is_trigger (moved_trigger moved.now t))) }
        ensures tables { self.new.tables ≡ record self.old.tables { triggers = with_trigger key.now (moved_trigger moved.now) self.old.tables.triggers } }
        ensures links { KeepsLinks self.old.links self.new.links }
        ensures spare { KeepsSpare self.old.spare self.new.spare }
    {
        self.triggers.edit(key, &TriggerEdit::Move(*moved));
    }

    /// Takes out a job's triggers, and says how many they were.
    pub fn remove_job_triggers(&mut self, job: &Key) -> usize
        ensures count { result ≡ length (filter (λ t. same_key job.now t.spec.job) self.old.tables.triggers) }
        ensures tables { self.new.tables ≡ record self.old.tables { triggers = filter (λ t. not (same_key job.now t.spec.job)) self.old.tables.triggers } }
        ensures links { KeepsOtherLinks job.now self.old.links self.new.links }
        ensures spare { KeepsSpare self.old.spare self.new.spare }
    {
        let before = self.triggers.len();
        self.triggers.remove_job(job);
        let after = self.triggers.len();
        before - after
    }

    /// Takes out the fired rows of this trigger that are acquired.
    ///
    /// It looks at every fired row.
    #[tactic(auto, unfolding(qz_types::specs::Changes::without_acquired))]
    pub fn remove_acquired(&mut self, trigger: &Key)
        ensures tables { self.new.tables ≡ record self.old.tables { fired = without_acquired (λ f. same_key trigger.now f.trigger) self.old.tables.fired } }
        ensures links { self.new.links ≡ self.old.links }
        ensures spare { KeepsSpare self.old.spare self.new.spare }
    {
        self.fired.remove_all(&AcquiredOf { trigger });
    }

    /// Takes out the fired rows of this job's triggers that are acquired.
    ///
    /// It looks at every fired row.
    #[tactic(auto, unfolding(qz_types::specs::Changes::without_acquired))]
    pub fn remove_acquired_of_job(&mut self, job: &Key)
        ensures tables { self.new.tables ≡ record self.old.tables { fired = without_acquired (λ f. same_key job.now f.job) self.old.tables.fired } }
        ensures links { self.new.links ≡ self.old.links }
        ensures spare { KeepsSpare self.old.spare self.new.spare }
    {
        self.fired.remove_all(&AcquiredOfJob { job });
    }

    /// Takes out the fired rows of this group's triggers that are acquired.
    ///
    /// It looks at every fired row.
    #[tactic(auto, unfolding(qz_types::specs::Changes::without_acquired))]
    pub fn remove_acquired_of_group(&mut self, group: &Text)
        ensures tables { self.new.tables ≡ record self.old.tables { fired = without_acquired (λ f. same_text group.now f.trigger.group) self.old.tables.fired } }
        ensures links { self.new.links ≡ self.old.links }
        ensures spare { KeepsSpare self.old.spare self.new.spare }
    {
        self.fired.remove_all(&AcquiredOfGroup { group });
    }

    /// Takes out the fired rows of the triggers of this group's jobs that are acquired.
    ///
    /// It looks at every fired row.
    #[tactic(auto, unfolding(qz_types::specs::Changes::without_acquired))]
    pub fn remove_acquired_of_job_group(&mut self, group: &Text)
        ensures tables { self.new.tables ≡ record self.old.tables { fired = without_acquired (λ f. same_text group.now f.job.group) self.old.tables.fired } }
        ensures links { self.new.links ≡ self.old.links }
        ensures spare { KeepsSpare self.old.spare self.new.spare }
    {
        self.fired.remove_all(&AcquiredOfJobGroup { group });
    }

    /// Takes out the fired rows of a member.
    ///
    /// It looks at every fired row.
    pub fn remove_rows_of(&mut self, node: &Text, epoch: u64)
        ensures tables { self.new.tables ≡ record self.old.tables { fired = filter (λ f. not (same_text node.now f.node && (epoch == f.epoch))) self.old.tables.fired } }
        ensures links { self.new.links ≡ self.old.links }
        ensures spare { KeepsSpare self.old.spare self.new.spare }
    {
        self.fired.remove_all(&OfMember { node, epoch });
    }
}
