//! What a command comes to is decided, and what it stores is copied, before it is done.
ghost use Rattle.std.specs.Prelude.{◌≡◌, Err, IsTrue, IfOk, IfErr};
ghost use Rattle.qz_types.specs.Entries.{is_entry};
ghost use Rattle.qz_types.specs.Outcomes.{IsAccepted, IsErrorOf};
ghost use Rattle.qz_types.specs.Tables.{recorded_moment};
ghost use Rattle.qz_model.specs.Invariant.{TablesValid};
ghost use Rattle.qz_model.specs.Transaction.{transaction};
ghost use Rattle.qz_apply.specs.Memory.{takes_memory};
ghost use Rattle.qz_types.specs.Groups.{IsOfSchedule};
ghost use Rattle.qz_schedule.specs.Preparing.{is_copied, change_for, Prepares};

use crate::changes::Change;
use crate::manual::copy_manual;
use crate::refusals::refusal;
use crate::triggers::prepare_trigger;
use qz_apply::recorded_moment;
use qz_tables::Tables;
use qz_types::{Command, Entry, StepRefused};
use std::alloc::AllocError;

/// Decides the command's transaction, and takes all memory that it needs. The tables stay as they are. Want of memory is
/// answered only where the command isn't refused, and never for a command that stores nothing.
#[tactic(auto, unfolding(qz_types::specs::Entries::is_entry))]
pub fn prepare(tables: &mut Tables, entry: &Entry) -> Result<Change, StepRefused>
    requires command { IsOfSchedule entry.now.command }
    requires valid { ∥ TablesValid tables.old.tables ∥₁ }
    requires entry { IsTrue (is_entry entry.now) }
    ensures ok { IfOk result (λ change. Prepares tables.new entry.now change) }
    ensures cause { IfErr result (IsErrorOf (transaction tables.old.tables entry.now)) }
    ensures memory { result ≡ Err StepRefused.NoMemory → IsTrue (takes_memory entry.now.command) }
    ensures same { tables.new.tables ≡ tables.old.tables }
    ensures links { tables.new.links ≡ tables.old.links }
{
    if let Command::AddTrigger { spec, replace } = &entry.command {
        return prepare_trigger(tables, spec, *replace);
    }
    if let Some(refusal) = refusal(tables, entry) {
        return Err(StepRefused::Refused(refusal));
    }
    if !is_copied(&entry.command) {
        return Ok(Change::InPlace);
    }
    tables.reserve(1)?;
    Ok(copy(tables, entry)?)
}

fn is_copied(command: &Command) -> bool
    ensures { result ≡ is_copied command.now }
{
    matches!(
        command,
        Command::AddJob { .. }
            | Command::PauseGroup { .. }
            | Command::PauseJobGroup { .. }
            | Command::AddCalendar { .. }
            | Command::AddZone { .. }
            | Command::TriggerNow { .. }
    )
}

// What the command stores.
#[tactic(auto, unfolding(qz_types::specs::Entries::is_entry))]
fn copy(tables: &Tables, entry: &Entry) -> Result<Change, AllocError>
    requires command { IsTrue (is_copied entry.now.command) }
    requires valid { ∥ TablesValid tables.now.tables ∥₁ }
    requires entry { IsTrue (is_entry entry.now) }
    requires accepts { IsAccepted (transaction tables.now.tables entry.now) }
    ensures { IfOk result (λ change. change ≡ change_for tables.now.tables (recorded_moment tables.now.tables entry.now.at) entry.now.command) }
{
    match &entry.command {
        Command::AddJob { job, .. } => Ok(Change::Job(job.copy()?)),
        Command::PauseGroup { group } => Ok(Change::Group(group.clone()?)),
        Command::PauseJobGroup { group } => Ok(Change::JobGroup(group.clone()?)),
        Command::AddCalendar { calendar, .. } => Ok(Change::Calendar(calendar.copy()?)),
        Command::AddZone { zone } => Ok(Change::Zone(zone.copy()?)),
        Command::TriggerNow { job } => copy_manual(tables, recorded_moment(tables, entry.at), job),
        _ => unreachable!(),
    }
}
