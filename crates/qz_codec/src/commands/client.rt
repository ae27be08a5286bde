//! Reading the fields of a client's commands.
ghost use Rattle.std.specs.Prelude.{◌≡◌, IsTrue, IfOk, false};
ghost use Rattle.qz_types.specs.Entries.{is_command, is_of_node};
ghost use Rattle.qz_types.specs.declared.commands.Command.TheVariants.{AddJob, DeleteJob, AddTrigger, DeleteTrigger, PauseTrigger, ResumeTrigger, PauseGroup, ResumeGroup, AddCalendar, DeleteCalendar, AddZone, DeleteZone, TriggerNow, Threshold, Join, ResetTrigger, PauseJobGroup, ResumeJobGroup};
ghost use Rattle.qz_values.specs.Reading.{Gives};
ghost use Rattle.qz_values.specs.Fields.{as_variant, name_at};
ghost use Rattle.qz_codec.specs.Reading.{key_at, node_at, threshold_at, job_at, spec_at, replacing_at};
ghost use Rattle.qz_codec.specs.Zones.{zone_row_at};
ghost use Rattle.qz_codec.specs.Calendars.{calendar_row_at};

use crate::calendars::calendar_row_of;
use crate::check_ins::interval_of;
use crate::jobs::job_of;
use crate::keys::key_of;
use crate::members::owned_node_of;
use crate::triggers::spec_of;
use crate::zones::zone_row_of;
use qz_civil::beside;
use qz_types::Command;
use qz_values::{Fault, Version, bool_at, owned_name_of};
use std::alloc::Global;

pub(super) fn add_job_of(alloc: Global, bytes: &[u8]) -> Result<(Command, &[u8]), Fault>
    ensures exact { Gives (λ x. (x.0, x.1.now)) result (replacing_at AddJob job_at bytes.now) }
    ensures valid { IfOk result (λ x. IsTrue (is_command x.0) × (is_of_node x.0 ≡ false)) }
{
    let (job, rest) = job_of(alloc, bytes)?;
    let (job, (replace, rest)) = beside(job, bool_at(rest))?;
    Ok((Command::AddJob { job, replace }, rest))
}

pub(super) fn add_trigger_of(
    alloc: Global,
    version: Version,
    bytes: &[u8],
) -> Result<(Command, &[u8]), Fault>
    ensures exact { Gives (λ x. (x.0, x.1.now)) result (replacing_at AddTrigger (spec_at version) bytes.now) }
    ensures valid { IfOk result (λ x. IsTrue (is_command x.0) × (is_of_node x.0 ≡ false)) }
{
    let (spec, rest) = spec_of(alloc, version, bytes)?;
    let (spec, (replace, rest)) = beside(spec, bool_at(rest))?;
    Ok((Command::AddTrigger { spec, replace }, rest))
}

pub(super) fn delete_job_of(alloc: Global, bytes: &[u8]) -> Result<(Command, &[u8]), Fault>
    ensures exact { Gives (λ x. (x.0, x.1.now)) result (as_variant DeleteJob (key_at bytes.now)) }
    ensures valid { IfOk result (λ x. IsTrue (is_command x.0) × (is_of_node x.0 ≡ false)) }
{
    let (key, rest) = key_of(alloc, bytes)?;
    Ok((Command::DeleteJob { key }, rest))
}

pub(super) fn delete_trigger_of(alloc: Global, bytes: &[u8]) -> Result<(Command, &[u8]), Fault>
    ensures exact { Gives (λ x. (x.0, x.1.now)) result (as_variant DeleteTrigger (key_at bytes.now)) }
    ensures valid { IfOk result (λ x. IsTrue (is_command x.0) × (is_of_node x.0 ≡ false)) }
{
    let (key, rest) = key_of(alloc, bytes)?;
    Ok((Command::DeleteTrigger { key }, rest))
}

pub(super) fn pause_trigger_of(alloc: Global, bytes: &[u8]) -> Result<(Command, &[u8]), Fault>
    ensures exact { Gives (λ x. (x.0, x.1.now)) result (as_variant PauseTrigger (key_at bytes.now)) }
    ensures valid { IfOk result (λ x. IsTrue (is_command x.0) × (is_of_node x.0 ≡ false)) }
{
    let (key, rest) = key_of(alloc, bytes)?;
    Ok((Command::PauseTrigger { key }, rest))
}

pub(super) fn resume_trigger_of(alloc: Global, bytes: &[u8]) -> Result<(Command, &[u8]), Fault>
    ensures exact { Gives (λ x. (x.0, x.1.now)) result (as_variant ResumeTrigger (key_at bytes.now)) }
    ensures valid { IfOk result (λ x. IsTrue (is_command x.0) × (is_of_node x.0 ≡ false)) }
{
    let (key, rest) = key_of(alloc, bytes)?;
    Ok((Command::ResumeTrigger { key }, rest))
}

pub(super) fn pause_group_of(alloc: Global, bytes: &[u8]) -> Result<(Command, &[u8]), Fault>
    ensures exact { Gives (λ x. (x.0, x.1.now)) result (as_variant PauseGroup (name_at bytes.now)) }
    ensures valid { IfOk result (λ x. IsTrue (is_command x.0) × (is_of_node x.0 ≡ false)) }
{
    let (group, rest) = owned_name_of(alloc, bytes)?;
    Ok((Command::PauseGroup { group }, rest))
}

pub(super) fn resume_group_of(alloc: Global, bytes: &[u8]) -> Result<(Command, &[u8]), Fault>
    ensures exact { Gives (λ x. (x.0, x.1.now)) result (as_variant ResumeGroup (name_at bytes.now)) }
    ensures valid { IfOk result (λ x. IsTrue (is_command x.0) × (is_of_node x.0 ≡ false)) }
{
    let (group, rest) = owned_name_of(alloc, bytes)?;
    Ok((Command::ResumeGroup { group }, rest))
}

pub(super) fn add_calendar_of(
    alloc: Global,
    version: Version,
    bytes: &[u8],
) -> Result<(Command, &[u8]), Fault>
    ensures exact { Gives (λ x. (x.0, x.1.now)) result (replacing_at AddCalendar (calendar_row_at version) bytes.now) }
    ensures valid { IfOk result (λ x. IsTrue (is_command x.0) × (is_of_node x.0 ≡ false)) }
{
    let (calendar, rest) = calendar_row_of(alloc, version, bytes)?;
    let (calendar, (replace, rest)) = beside(calendar, bool_at(rest))?;
    Ok((Command::AddCalendar { calendar, replace }, rest))
}

pub(super) fn delete_calendar_of(alloc: Global, bytes: &[u8]) -> Result<(Command, &[u8]), Fault>
    ensures exact { Gives (λ x. (x.0, x.1.now)) result (as_variant DeleteCalendar (name_at bytes.now)) }
    ensures valid { IfOk result (λ x. IsTrue (is_command x.0) × (is_of_node x.0 ≡ false)) }
{
    let (name, rest) = owned_name_of(alloc, bytes)?;
    Ok((Command::DeleteCalendar { name }, rest))
}

pub(super) fn add_zone_of(
    alloc: Global,
    version: Version,
    bytes: &[u8],
) -> Result<(Command, &[u8]), Fault>
    ensures exact { Gives (λ x. (x.0, x.1.now)) result (as_variant AddZone (zone_row_at version bytes.now)) }
    ensures valid { IfOk result (λ x. IsTrue (is_command x.0) × (is_of_node x.0 ≡ false)) }
{
    let (zone, rest) = zone_row_of(alloc, version, bytes)?;
    Ok((Command::AddZone { zone }, rest))
}

pub(super) fn delete_zone_of(alloc: Global, bytes: &[u8]) -> Result<(Command, &[u8]), Fault>
    ensures exact { Gives (λ x. (x.0, x.1.now)) result (as_variant DeleteZone (name_at bytes.now)) }
    ensures valid { IfOk result (λ x. IsTrue (is_command x.0) × (is_of_node x.0 ≡ false)) }
{
    let (name, rest) = owned_name_of(alloc, bytes)?;
    Ok((Command::DeleteZone { name }, rest))
}

pub(super) fn trigger_now_of(alloc: Global, bytes: &[u8]) -> Result<(Command, &[u8]), Fault>
    ensures exact { Gives (λ x. (x.0, x.1.now)) result (as_variant TriggerNow (key_at bytes.now)) }
    ensures valid { IfOk result (λ x. IsTrue (is_command x.0) × (is_of_node x.0 ≡ false)) }
{
    let (key, rest) = key_of(alloc, bytes)?;
    Ok((Command::TriggerNow { job: key }, rest))
}

pub(super) fn threshold_of(bytes: &[u8]) -> Result<(Command, &[u8]), Fault>
    ensures exact { Gives (λ x. (x.0, x.1.now)) result (as_variant Threshold (threshold_at bytes.now)) }
    ensures valid { IfOk result (λ x. IsTrue (is_command x.0) × (is_of_node x.0 ≡ false)) }
{
    let (ms, rest) = interval_of(bytes)?;
    Ok((Command::Threshold { ms }, rest))
}

pub(super) fn join_of(alloc: Global, bytes: &[u8]) -> Result<(Command, &[u8]), Fault>
    ensures exact { Gives (λ x. (x.0, x.1.now)) result (as_variant Join (node_at bytes.now)) }
    ensures valid { IfOk result (λ x. IsTrue (is_command x.0) × (is_of_node x.0 ≡ false)) }
{
    let (node, rest) = owned_node_of(alloc, bytes)?;
    Ok((Command::Join { node }, rest))
}

pub(super) fn reset_trigger_of(alloc: Global, bytes: &[u8]) -> Result<(Command, &[u8]), Fault>
    ensures exact { Gives (λ x. (x.0, x.1.now)) result (as_variant ResetTrigger (key_at bytes.now)) }
    ensures valid { IfOk result (λ x. IsTrue (is_command x.0) × (is_of_node x.0 ≡ false)) }
{
    let (key, rest) = key_of(alloc, bytes)?;
    Ok((Command::ResetTrigger { key }, rest))
}

pub(super) fn pause_job_group_of(alloc: Global, bytes: &[u8]) -> Result<(Command, &[u8]), Fault>
    ensures exact { Gives (λ x. (x.0, x.1.now)) result (as_variant PauseJobGroup (name_at bytes.now)) }
    ensures valid { IfOk result (λ x. IsTrue (is_command x.0) × (is_of_node x.0 ≡ false)) }
{
    let (group, rest) = owned_name_of(alloc, bytes)?;
    Ok((Command::PauseJobGroup { group }, rest))
}

pub(super) fn resume_job_group_of(alloc: Global, bytes: &[u8]) -> Result<(Command, &[u8]), Fault>
    ensures exact { Gives (λ x. (x.0, x.1.now)) result (as_variant ResumeJobGroup (name_at bytes.now)) }
    ensures valid { IfOk result (λ x. IsTrue (is_command x.0) × (is_of_node x.0 ≡ false)) }
{
    let (group, rest) = owned_name_of(alloc, bytes)?;
    Ok((Command::ResumeJobGroup { group }, rest))
}
