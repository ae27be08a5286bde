//! Pausing and resuming triggers and groups of them.
ghost use Rattle.std.specs.Prelude.{◌≡◌, ◌≤◌, None, option_copied};
ghost use Rattle.qz_types.specs.Outcomes.{accepted};
ghost use Rattle.qz_types.specs.Words.{trigger_of, is_paused, put_group, without_group};
ghost use Rattle.qz_model.specs.Pausing.{pause_trigger, resume_trigger, pause_group_refusal, pause_group, resume_group};
ghost use Rattle.qz_model.specs.Triggers.{unknown_trigger};

use qz_apply::is_paused;
use qz_tables::{StateChange, Tables};
use qz_types::{GROUP_LIMIT, Key, Refusal, Reply, Text};

/// Pauses the trigger of this key, which is stored. If it is acquired, its fired row goes. The moment is in ms since
/// 1970-01-01T00:00:00Z.
pub fn pause_trigger(tables: &mut Tables, moment: i64, key: &Key) -> Reply
    requires { unknown_trigger (trigger_of key.now tables.old.tables.triggers) ≡ None }
    ensures { pause_trigger tables.old.tables moment key.now ≡ accepted tables.new.tables result }
{
    tables.change_state(key, StateChange::Pause);
    tables.remove_acquired(key);
    tables.set_last_moment(moment);
    Reply::Done
}

/// Resumes the trigger of this key, which is stored. The moment is in ms since 1970-01-01T00:00:00Z.
pub fn resume_trigger(tables: &mut Tables, moment: i64, key: &Key) -> Reply
    requires { unknown_trigger (trigger_of key.now tables.old.tables.triggers) ≡ None }
    ensures { resume_trigger tables.old.tables moment key.now ≡ accepted tables.new.tables result }
{
    tables.change_state(key, StateChange::Resume);
    tables.set_last_moment(moment);
    Reply::Done
}

/// Pauses the group, which nothing refuses, with the triggers that are stored in it now and later. The fired rows of those
/// that are acquired go. The moment is in ms since 1970-01-01T00:00:00Z.
pub fn pause_group(tables: &mut Tables, moment: i64, group: Text) -> Reply
    requires accepts { pause_group_refusal tables.old.tables group ≡ None }
    requires spare { 1 ≤ tables.old.spare.paused_groups }
    ensures { pause_group tables.old.tables moment group ≡ accepted tables.new.tables result }
{
    tables.change_group_states(&group, StateChange::Pause);
    tables.remove_acquired_of_group(&group);
    put_group(tables, group);
    tables.set_last_moment(moment);
    Reply::Done
}

/// Why the group isn't paused, if it isn't.
#[tactic(auto, unfolding(qz_model::specs::Pausing::pause_group_refusal))]
pub fn pause_group_refusal(tables: &Tables, group: &Text) -> Option<Refusal>
    ensures { result ≡ pause_group_refusal tables.now.tables group.now }
{
    if !is_paused(tables, group) && tables.len_groups() as u64 >= GROUP_LIMIT {
        Some(Refusal::TooMany { count: GROUP_LIMIT })
    } else {
        None
    }
}

// Remembers that the group is paused.
#[tactic(auto, using(qz_model::proofs::NamedRows::group_of_without))]
fn put_group(tables: &mut Tables, group: Text)
    requires spare { 1 ≤ tables.old.spare.paused_groups }
    ensures { tables.new.tables ≡ record tables.old.tables { paused_groups = put_group group (without_group group tables.old.tables.paused_groups) } }
{
    let removed = tables.remove_group(&group);
    drop(removed);
    tables.insert_group(group);
}

/// Resumes the group. None of its triggers stays paused, whether it was paused with the group or alone, but those whose job's
/// group is paused. The moment is in ms since 1970-01-01T00:00:00Z.
pub fn resume_group(tables: &mut Tables, moment: i64, group: &Text) -> Reply
    ensures { resume_group tables.old.tables moment group.now ≡ accepted tables.new.tables result }
{
    let removed = tables.remove_group(group);
    drop(removed);
    tables.resume_group_states(group);
    tables.set_last_moment(moment);
    Reply::Done
}
