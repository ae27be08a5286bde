//! Why a command is refused.
ghost use Rattle.std.specs.Prelude.{◌≡◌, IsTrue, MatchOption};
ghost use Rattle.qz_types.specs.Outcomes.{refused, IsAccepted};
ghost use Rattle.qz_model.specs.Invariant.{TablesValid};
ghost use Rattle.qz_model.specs.Transaction.{transaction};
ghost use Rattle.qz_types.specs.Groups.{IsOfSchedule};

use crate::calendars::{add_calendar_refusal, delete_calendar_refusal};
use crate::job_groups::pause_job_group_refusal;
use crate::jobs::{add_job_refusal, delete_job_refusal};
use crate::manual::trigger_now_refusal;
use crate::pausing::pause_group_refusal;
use crate::resetting::reset_refusal;
use crate::triggers::{add_trigger_refusal, unknown_trigger};
use crate::upgrading::upgrade_refusal;
use crate::zones::{add_zone_refusal, delete_zone_refusal};
use qz_tables::Tables;
use qz_types::{Command, Entry, Refusal};

/// Why the command is refused, if it is. It takes no memory.
#[tactic(auto, using(qz_apply::proofs::Refused::of_one), unfolding(qz_types::specs::Entries::is_entry))]
pub fn refusal(tables: &Tables, entry: &Entry) -> Option<Refusal>
    requires command { IsOfSchedule entry.now.command }
    requires valid { ∥ TablesValid tables.now.tables ∥₁ }
    ensures { MatchOption result (IsAccepted (transaction tables.now.tables entry.now)) (λ x. transaction tables.now.tables entry.now ≡ refused x) }
{
    match &entry.command {
        Command::AddJob { job, replace } => add_job_refusal(tables, job, *replace),
        Command::DeleteJob { key } => delete_job_refusal(tables, key),
        Command::AddTrigger { spec, replace } => add_trigger_refusal(tables, spec, *replace),
        Command::DeleteTrigger { key }
        | Command::PauseTrigger { key }
        | Command::ResumeTrigger { key } => unknown_trigger(tables, key),
        Command::PauseGroup { group } => pause_group_refusal(tables, group),
        Command::ResumeGroup { .. } => None,
        Command::PauseJobGroup { group } => pause_job_group_refusal(tables, group),
        Command::ResumeJobGroup { .. } => None,
        Command::ResetTrigger { key } => reset_refusal(tables, key),
        Command::AddCalendar { calendar, replace } => add_calendar_refusal(
            tables, calendar, *replace,
        ),
        Command::DeleteCalendar { name } => delete_calendar_refusal(tables, name),
        Command::AddZone { zone } => add_zone_refusal(tables, zone),
        Command::DeleteZone { name } => delete_zone_refusal(tables, name),
        Command::TriggerNow { job } => trigger_now_refusal(tables, job),
        Command::Threshold { .. } => None,
        Command::Upgrade => upgrade_refusal(tables),
        _ => unreachable!(),
    }
}
