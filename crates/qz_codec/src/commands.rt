//! Commands, both ways.
ghost use Rattle.std.specs.Prelude.{◌≡◌, IsTrue, IfOk, true, false, ◌++◌, ◌∷◌, [], OnOk};
ghost use Rattle.qz_types.specs.Entries.{is_command, is_of_node, has_actor};
ghost use Rattle.qz_values.specs.Reading.{Gives};
ghost use Rattle.qz_codec.specs.Reading.{later_command_at, client_command_at, node_command_at, command_at};
ghost use Rattle.std.specs.Int.{w32, w64};
ghost use Rattle.qz_codec.specs.Values.{IsCommand};
ghost use Rattle.qz_values.specs.Fields.{number, integer, flag};
ghost use Rattle.qz_codec.specs.Layout.{key, job, spec, code_place, command_place, command_fields, command};
ghost use Rattle.qz_codec.specs.Calendars.{calendar_row};
ghost use Rattle.qz_values.specs.declared.versions.Version.TheVariants.{Two};

mod client;
mod node;

use crate::calendars::put_calendar_row;
use crate::codes::place_of_code;
use crate::jobs::put_job;
use crate::keys::put_key;
use crate::members::put_node;
use crate::triggers::put_spec;
use crate::zones::put_zone_row;
use client::{
    add_calendar_of, add_job_of, add_trigger_of, add_zone_of, delete_calendar_of, delete_job_of,
    delete_trigger_of, delete_zone_of, join_of, pause_group_of, pause_job_group_of,
    pause_trigger_of, reset_trigger_of, resume_group_of, resume_job_group_of, resume_trigger_of,
    threshold_of, trigger_now_of,
};
use node::{acquire_of, complete_of, fire_of, recover_of, release_of};
use qz_types::{Actor, CalendarRow, Code, Command, JobRow, TriggerSpec};
use qz_values::{Fault, Version, put_bool, put_i64, put_name, put_u8, put_u32, put_u64, u8_at};
use std::alloc::{AllocError, Global};

/// A client's command that only records of version two have.
#[tactic(auto, unfolding(crate::specs::Reading::later_command_at))]
fn later_command_of(
    alloc: Global,
    version: Version,
    bytes: &[u8],
) -> Result<(Command, &[u8]), Fault>
    ensures exact { Gives (λ x. (x.0, x.1.now)) result (later_command_at version bytes.now) }
    ensures valid { IfOk result (λ x. IsTrue (is_command x.0) × (is_of_node x.0 ≡ false)) }
{
    if let Version::One = version {
        return Err(Fault::at(bytes));
    }
    let (place, rest) = u8_at(bytes)?;
    match place {
        22 => Ok((Command::Upgrade, rest)),
        23 => reset_trigger_of(alloc, rest),
        24 => pause_job_group_of(alloc, rest),
        25 => resume_job_group_of(alloc, rest),
        _ => Err(Fault::at(bytes)),
    }
}

#[tactic(auto, unfolding(crate::specs::Reading::client_command_at))]
fn client_command_of(
    alloc: Global,
    version: Version,
    bytes: &[u8],
) -> Result<(Command, &[u8]), Fault>
    ensures exact { Gives (λ x. (x.0, x.1.now)) result (client_command_at version bytes.now) }
    ensures valid { IfOk result (λ x. IsTrue (is_command x.0) × (is_of_node x.0 ≡ false)) }
{
    let (place, rest) = u8_at(bytes)?;
    match place {
        0 => add_job_of(alloc, rest),
        1 => delete_job_of(alloc, rest),
        2 => add_trigger_of(alloc, version, rest),
        3 => delete_trigger_of(alloc, rest),
        4 => pause_trigger_of(alloc, rest),
        5 => resume_trigger_of(alloc, rest),
        6 => pause_group_of(alloc, rest),
        7 => resume_group_of(alloc, rest),
        8 => add_calendar_of(alloc, version, rest),
        9 => delete_calendar_of(alloc, rest),
        10 => add_zone_of(alloc, version, rest),
        11 => delete_zone_of(alloc, rest),
        12 => trigger_now_of(alloc, rest),
        13 => threshold_of(rest),
        14 => join_of(alloc, rest),
        _ => later_command_of(alloc, version, bytes),
    }
}

#[tactic(auto, unfolding(crate::specs::Reading::node_command_at))]
fn node_command_of(alloc: Global, bytes: &[u8]) -> Result<(Command, &[u8]), Fault>
    ensures exact { Gives (λ x. (x.0, x.1.now)) result (node_command_at bytes.now) }
    ensures valid { IfOk result (λ x. IsTrue (is_command x.0) × (is_of_node x.0 ≡ true)) }
{
    let (place, rest) = u8_at(bytes)?;
    match place {
        15 => Ok((Command::Leave, rest)),
        16 => acquire_of(rest),
        17 => release_of(rest),
        18 => fire_of(rest),
        19 => complete_of(rest),
        20 => Ok((Command::Misfires, rest)),
        21 => recover_of(alloc, rest),
        _ => Err(Fault::at(bytes)),
    }
}

/// A command that this actor may give.
pub(crate) fn command_of<'a>(
    alloc: Global,
    version: Version,
    actor: &Actor,
    bytes: &'a [u8],
) -> Result<(Command, &'a [u8]), Fault>
    ensures exact { Gives (λ x. (x.0, x.1.now)) result (command_at version actor.now bytes.now) }
    ensures valid { IfOk result (λ x. IsTrue (is_command x.0) × IsTrue (has_actor (is_of_node x.0) actor.now)) }
{
    match actor {
        Actor::Client => client_command_of(alloc, version, bytes),
        Actor::Node(_) => node_command_of(alloc, bytes),
    }
}

/// The place of the command among all commands.
fn place_of_command(c: &Command) -> u8
    ensures { result ≡ command_place c.now }
{
    match c {
        Command::AddJob { .. } => 0,
        Command::DeleteJob { .. } => 1,
        Command::AddTrigger { .. } => 2,
        Command::DeleteTrigger { .. } => 3,
        Command::PauseTrigger { .. } => 4,
        Command::ResumeTrigger { .. } => 5,
        Command::PauseGroup { .. } => 6,
        Command::ResumeGroup { .. } => 7,
        Command::AddCalendar { .. } => 8,
        Command::DeleteCalendar { .. } => 9,
        Command::AddZone { .. } => 10,
        Command::DeleteZone { .. } => 11,
        Command::TriggerNow { .. } => 12,
        Command::Threshold { .. } => 13,
        Command::Join { .. } => 14,
        Command::Leave => 15,
        Command::Acquire { .. } => 16,
        Command::Release { .. } => 17,
        Command::Fire { .. } => 18,
        Command::Complete { .. } => 19,
        Command::Misfires => 20,
        Command::Recover { .. } => 21,
        Command::Upgrade => 22,
        Command::ResetTrigger { .. } => 23,
        Command::PauseJobGroup { .. } => 24,
        Command::ResumeJobGroup { .. } => 25,
    }
}

fn put_add_job(out: &mut Vec<u8>, row: &JobRow, replace: bool) -> Result<(), AllocError>
    ensures bytes { OnOk result (out.new.items ≡ out.old.items ++ (job row.now ++ flag replace)) }
    ensures valid { OnOk result (IsCommand Two (Command.AddJob row.now replace)) }
{
    put_job(out, row)?;
    put_bool(out, replace)
}

fn put_add_trigger(out: &mut Vec<u8>, row: &TriggerSpec, replace: bool) -> Result<(), AllocError>
    requires { IsTrue (is_command (Command.AddTrigger row.now replace)) }
    ensures bytes { OnOk result (out.new.items ≡ out.old.items ++ (spec Two row.now ++ flag replace)) }
    ensures valid { OnOk result (IsCommand Two (Command.AddTrigger row.now replace)) }
{
    put_spec(out, row)?;
    put_bool(out, replace)
}

fn put_add_calendar(out: &mut Vec<u8>, row: &CalendarRow, replace: bool) -> Result<(), AllocError>
    ensures bytes { OnOk result (out.new.items ≡ out.old.items ++ (calendar_row row.now ++ flag replace)) }
    ensures valid { OnOk result (IsCommand Two (Command.AddCalendar row.now replace)) }
{
    put_calendar_row(out, row)?;
    put_bool(out, replace)
}

fn put_complete(out: &mut Vec<u8>, entry: u64, code: Code) -> Result<(), AllocError>
    ensures bytes { OnOk result (out.new.items ≡ out.old.items ++ (number w64 entry ++ code_place code ∷ [])) }
    ensures valid { OnOk result (IsCommand Two (Command.Complete entry code)) }
{
    put_u64(out, entry)?;
    put_u8(out, place_of_code(code))
}

#[tactic(auto, using(qz_values::proofs::Signs::signs))]
fn put_acquire(out: &mut Vec<u8>, no_later: i64, window: i64, max: u32) -> Result<(), AllocError>
    requires { IsTrue (is_command (Command.Acquire no_later window max)) }
    ensures bytes { OnOk result (out.new.items ≡ out.old.items ++ (integer w64 no_later ++ (integer w64 window ++ number w32 max))) }
    ensures valid { OnOk result (IsCommand Two (Command.Acquire no_later window max)) }
{
    put_i64(out, no_later)?;
    put_i64(out, window)?;
    put_u32(out, max)
}

#[tactic(auto, using(qz_values::proofs::Signs::signs))]
fn put_command_fields(out: &mut Vec<u8>, c: &Command) -> Result<(), AllocError>
    requires { IsTrue (is_command c.now) }
    ensures bytes { OnOk result (out.new.items ≡ out.old.items ++ command_fields Two c.now) }
    ensures valid { OnOk result (IsCommand Two c.now) }
{
    match c {
        Command::AddJob { job, replace } => put_add_job(out, job, *replace),
        Command::AddTrigger { spec, replace } => put_add_trigger(out, spec, *replace),
        Command::DeleteJob { key }
        | Command::DeleteTrigger { key }
        | Command::PauseTrigger { key }
        | Command::ResumeTrigger { key }
        | Command::ResetTrigger { key }
        | Command::TriggerNow { job: key } => put_key(out, key),
        Command::PauseGroup { group: name }
        | Command::ResumeGroup { group: name }
        | Command::PauseJobGroup { group: name }
        | Command::ResumeJobGroup { group: name }
        | Command::DeleteCalendar { name }
        | Command::DeleteZone { name } => put_name(out, name),
        Command::AddCalendar { calendar, replace } => put_add_calendar(out, calendar, *replace),
        Command::AddZone { zone } => put_zone_row(out, zone),
        Command::Threshold { ms } => put_i64(out, *ms),
        Command::Join { node } | Command::Recover { node } => put_node(out, node),
        Command::Acquire {
            no_later,
            window,
            max,
        } => put_acquire(out, *no_later, *window, *max),
        Command::Release { entry } | Command::Fire { entry } => put_u64(out, *entry),
        Command::Complete { entry, code } => put_complete(out, *entry, *code),
        Command::Leave | Command::Misfires | Command::Upgrade => Ok(()),
    }
}

/// The place of the command, and its fields.
#[tactic(auto, unfolding(crate::specs::Layout::command))]
pub(crate) fn put_whole_command(out: &mut Vec<u8>, c: &Command) -> Result<(), AllocError>
    requires { IsTrue (is_command c.now) }
    ensures bytes { OnOk result (out.new.items ≡ out.old.items ++ command Two c.now) }
    ensures valid { OnOk result (IsCommand Two c.now) }
{
    put_u8(out, place_of_command(c))?;
    put_command_fields(out, c)
}
