//! Pausing and resuming groups of jobs: the triggers of their jobs.
ghost use Rattle.std.specs.Prelude.{◌≡◌, ◌≤◌, None};
ghost use Rattle.qz_types.specs.Outcomes.{accepted};
ghost use Rattle.qz_types.specs.Words.{put_group, without_group};
ghost use Rattle.qz_model.specs.Pausing.{pause_job_group_refusal, pause_job_group, resume_job_group};

use qz_apply::is_job_group_paused;
use qz_tables::{StateChange, Tables};
use qz_types::{JOB_GROUP_LIMIT, Refusal, Reply, Text};

/// Pauses the group of jobs, which nothing refuses, with the triggers that are stored for its jobs now and later. The fired rows
/// of those that are acquired go. The moment is in ms since 1970-01-01T00:00:00Z.
pub fn pause_job_group(tables: &mut Tables, moment: i64, group: Text) -> Reply
    requires accepts { pause_job_group_refusal tables.old.tables group ≡ None }
    requires spare { 1 ≤ tables.old.spare.paused_job_groups }
    ensures { pause_job_group tables.old.tables moment group ≡ accepted tables.new.tables result }
{
    tables.change_job_group_states(&group, StateChange::Pause);
    tables.remove_acquired_of_job_group(&group);
    put_job_group(tables, group);
    tables.set_last_moment(moment);
    Reply::Done
}

/// Why the group of jobs isn't paused, if it isn't.
#[tactic(auto, unfolding(qz_model::specs::Pausing::pause_job_group_refusal))]
pub fn pause_job_group_refusal(tables: &Tables, group: &Text) -> Option<Refusal>
    ensures { result ≡ pause_job_group_refusal tables.now.tables group.now }
{
    if !is_job_group_paused(tables, group) && tables.len_job_groups() as u64 >= JOB_GROUP_LIMIT {
        Some(Refusal::TooMany {
            count: JOB_GROUP_LIMIT,
        })
    } else {
        None
    }
}

// Remembers that the group of jobs is paused.
#[tactic(auto, using(qz_model::proofs::NamedRows::group_of_without))]
fn put_job_group(tables: &mut Tables, group: Text)
    requires spare { 1 ≤ tables.old.spare.paused_job_groups }
    ensures { tables.new.tables ≡ record tables.old.tables { paused_job_groups = put_group group (without_group group tables.old.tables.paused_job_groups) } }
{
    let removed = tables.remove_job_group(&group);
    drop(removed);
    tables.insert_job_group(group);
}

/// Resumes the group of jobs. None of its jobs' triggers stays paused, whether it was paused with the group or alone, but those
/// whose own group is paused. The moment is in ms since 1970-01-01T00:00:00Z.
pub fn resume_job_group(tables: &mut Tables, moment: i64, group: &Text) -> Reply
    ensures { resume_job_group tables.old.tables moment group.now ≡ accepted tables.new.tables result }
{
    let removed = tables.remove_job_group(group);
    drop(removed);
    tables.resume_job_group_states(group);
    tables.set_last_moment(moment);
    Reply::Done
}
