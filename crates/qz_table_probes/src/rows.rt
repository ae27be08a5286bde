//! Rows.
ghost use Rattle.std.specs.Prelude.{◌≡◌, ◌<◌, ◌&&◌, not, None, IsOk, OnOk, OnSome, option_copied};
ghost use Rattle.qz_tables.specs.Changes.{changed};
ghost use Rattle.qz_tables.specs.Contents.{KeepsSpare, HasSpare, one_job};
ghost use Rattle.qz_tables.specs.Due as due;
ghost use Rattle.qz_tables.specs.Links.{KeepsLinks};
ghost use Rattle.qz_types.specs.Changes.{with_state, with_states, without_acquired};
ghost use Rattle.qz_types.specs.States.{resumed};
ghost use Rattle.qz_types.specs.Sorted.{IsAscending};
ghost use Rattle.qz_types.specs.Words.{is_paused, key_cmp, same_key, same_text, job_of, put_job, without_job, with_trigger};

use qz_tables::{StateChange, Tables, Test};
use qz_types::{JobRow, Key, NoMemory, Text, TriggerRow};

/// Makes room, as `Tables::reserve` does.
pub fn reserve(tables: &mut Tables, rows: usize) -> Result<(), NoMemory>
    ensures tables { tables.new.tables ≡ tables.old.tables }
    ensures links { tables.new.links ≡ tables.old.links }
    ensures spare { KeepsSpare tables.old.spare tables.new.spare }
    ensures room { OnOk result (HasSpare rows tables.new.spare) }
    ensures succeeds { HasSpare rows tables.old.spare → IsOk result }
{
    tables.reserve(rows)
}

/// Finds a job, as `Tables::get_job` does.
pub fn get_job<'a>(tables: &'a Tables, key: &Key) -> Option<&'a JobRow>
    ensures row { option_copied result ≡ job_of key.now tables.now.tables.jobs }
    ensures sorted { IsAscending key_cmp (λ r. r.key) tables.now.tables.jobs }
{
    tables.get_job(key)
}

/// Inserts a job, as `Tables::insert_job` does.
pub fn insert_job(tables: &mut Tables, row: JobRow)
    requires absent { job_of row.key tables.old.tables.jobs ≡ None }
    requires room { 0 < tables.old.spare.jobs }
    ensures tables { tables.new.tables ≡ record tables.old.tables { jobs = put_job row tables.old.tables.jobs } }
    ensures links { tables.new.links ≡ tables.old.links }
    ensures spare { KeepsSpare tables.old.spare (one_job tables.new.spare) }
{
    tables.insert_job(row)
}

/// Removes a job, as `Tables::remove_job` does.
pub fn remove_job(tables: &mut Tables, key: &Key) -> Option<JobRow>
    ensures row { result ≡ job_of key.now tables.old.tables.jobs }
    ensures tables { tables.new.tables ≡ record tables.old.tables { jobs = without_job key.now tables.old.tables.jobs } }
    ensures links { tables.new.links ≡ tables.old.links }
    ensures spare { KeepsSpare tables.old.spare tables.new.spare }
    ensures freed { OnSome result (KeepsSpare (one_job tables.old.spare) tables.new.spare) }
{
    tables.remove_job(key)
}

/// Changes the state of a trigger, as `Tables::change_state` does.
pub fn change_state(tables: &mut Tables, key: &Key, change: StateChange)
    ensures tables { tables.new.tables ≡ record tables.old.tables { triggers = with_trigger key.now (with_state (changed change)) tables.old.tables.triggers } }
    ensures links { KeepsLinks tables.old.links tables.new.links }
    ensures spare { KeepsSpare tables.old.spare tables.new.spare }
{
    tables.change_state(key, change)
}

/// Resumes the triggers of a group, as `Tables::resume_group_states` does.
pub fn resume_group_states(tables: &mut Tables, group: &Text)
    ensures tables { tables.new.tables ≡ record tables.old.tables { triggers = with_states resumed (λ t. same_text group.now t.spec.key.group && not (is_paused t.spec.job.group tables.old.tables.paused_job_groups)) tables.old.tables.triggers } }
    ensures links { KeepsLinks tables.old.links tables.new.links }
    ensures spare { KeepsSpare tables.old.spare tables.new.spare }
{
    tables.resume_group_states(group)
}

/// Removes what is acquired of a trigger, as `Tables::remove_acquired` does.
pub fn remove_acquired(tables: &mut Tables, trigger: &Key)
    ensures tables { tables.new.tables ≡ record tables.old.tables { fired = without_acquired (λ f. same_key trigger.now f.trigger) tables.old.tables.fired } }
    ensures links { tables.new.links ≡ tables.old.links }
    ensures spare { KeepsSpare tables.old.spare tables.new.spare }
{
    tables.remove_acquired(trigger)
}

/// The trigger that is due first, as `Tables::due_first` gives it.
pub fn first_due(tables: &Tables) -> Option<&TriggerRow>
    ensures { option_copied result ≡ due.due_first tables.now.tables.triggers }
{
    tables.due_first()
}

/// The next trigger that is due and passes, as `Tables::due_next` gives it.
pub fn next_due<'a, T: Test<TriggerRow>>(
    tables: &'a Tables,
    after: Option<&Key>,
    test: &T,
) -> Option<&'a TriggerRow>
    ensures { option_copied result ≡ due.due_next (option_copied after.entry) (T.test test.now) tables.now.tables.triggers }
{
    tables.due_next(after, test)
}
