//! A command that is prepared is done.
ghost use Rattle.std.specs.Prelude.{◌≡◌, false, IsTrue};
ghost use Rattle.qz_types.specs.Entries.{is_entry};
ghost use Rattle.qz_types.specs.Outcomes.{accepted, IsAccepted};
ghost use Rattle.qz_model.specs.Invariant.{TablesValid};
ghost use Rattle.qz_model.specs.Transaction.{transaction};
ghost use Rattle.qz_apply.specs.Memory.{takes_memory};
ghost use Rattle.qz_types.specs.Groups.{IsOfSchedule};
ghost use Rattle.qz_schedule.specs.Preparing.{Prepares};

use crate::calendars::{add_calendar, delete_calendar};
use crate::changes::Change;
use crate::job_groups::{pause_job_group, resume_job_group};
use crate::jobs::{add_job, delete_job};
use crate::manual::trigger_now;
use crate::pausing::{pause_group, pause_trigger, resume_group, resume_trigger};
use crate::resetting::reset_trigger;
use crate::threshold::set_threshold;
use crate::triggers::{add_trigger, delete_trigger};
use crate::upgrading::upgrade;
use crate::zones::{add_zone, delete_zone};
use qz_apply::recorded_moment;
use qz_tables::Tables;
use qz_types::{Command, Entry, Reply};

/// Does what was prepared for the entry. It takes no memory and can't fail.
pub fn commit(tables: &mut Tables, entry: &Entry, change: Change) -> Reply
    requires valid { ∥ TablesValid tables.old.tables ∥₁ }
    requires entry { IsTrue (is_entry entry.now) }
    requires prepared { Prepares tables.old entry.now change }
    ensures ok { transaction tables.old.tables entry.now ≡ accepted tables.new.tables result }
    ensures valid { ∥ TablesValid tables.new.tables ∥₁ }
{
    let moment = recorded_moment(tables, entry.at);
    match change {
        Change::InPlace => commit_in_place(tables, entry),
        Change::Job(job) => add_job(tables, moment, job),
        Change::Trigger(row) => add_trigger(tables, moment, row),
        Change::Group(group) => pause_group(tables, moment, group),
        Change::JobGroup(group) => pause_job_group(tables, moment, group),
        Change::Calendar(calendar) => add_calendar(tables, moment, calendar),
        Change::Zone(zone) => add_zone(tables, moment, zone),
        Change::Manual { row, key } => trigger_now(tables, moment, row, key),
    }
}

// Does a command that stores nothing.
fn commit_in_place(tables: &mut Tables, entry: &Entry) -> Reply
    requires command { IsOfSchedule entry.now.command }
    requires in_place { takes_memory entry.now.command ≡ false }
    requires accepts { IsAccepted (transaction tables.old.tables entry.now) }
    ensures { transaction tables.old.tables entry.now ≡ accepted tables.new.tables result }
{
    let moment = recorded_moment(tables, entry.at);
    match &entry.command {
        Command::DeleteJob { key } => delete_job(tables, moment, key),
        Command::DeleteTrigger { key } => delete_trigger(tables, moment, key),
        Command::PauseTrigger { key } => pause_trigger(tables, moment, key),
        Command::ResumeTrigger { key } => resume_trigger(tables, moment, key),
        Command::ResumeGroup { group } => resume_group(tables, moment, group),
        Command::ResumeJobGroup { group } => resume_job_group(tables, moment, group),
        Command::ResetTrigger { key } => reset_trigger(tables, moment, key),
        Command::DeleteCalendar { name } => delete_calendar(tables, moment, name),
        Command::DeleteZone { name } => delete_zone(tables, moment, name),
        Command::Threshold { ms } => set_threshold(tables, moment, *ms),
        Command::Upgrade => upgrade(tables, moment),
        _ => unreachable!(),
    }
}
