//! Transactions as lines of scripts.
ghost use Rattle.std.specs.Prelude.{◌≡◌, ◌++◌, ◌∷◌, OnOk};
ghost use Rattle.qz_steps.specs.Words.{word_of_command};
ghost use Rattle.qz_json_rows.specs.Lines as spec;
ghost use Rattle.qz_json_rows.specs.Zones.{zone_members};

use crate::calendars::push_calendar;
use crate::jobs::{push_job, push_key};
use crate::json::push_number;
use crate::members::{
    more, more_number, more_plain, more_set, more_unsigned, push_label, push_more, unusual_number,
};
use crate::triggers::push_trigger;
use crate::zones::push_zone_members;
use qz_types::{
    Actor, CalendarRow, Code, Command, Entry, JobRow, Key, NoMemory, TriggerSpec, ZoneRow,
};
use std::alloc::{AllocError, Global};

/// Adds the line of a transaction with its recorded moment, in ms since 1970-01-01T00:00:00Z, and without a line feed. A cron
/// text takes memory of its own while it is printed.
#[tactic(auto, unfolding(crate::specs::Lines::line_text))]
pub fn push_line(
    alloc: Global,
    text: &mut Vec<u8>,
    moment: i64,
    entry: &Entry,
) -> Result<(), NoMemory>
    ensures { OnOk result (text.new.items ≡ text.old.items ++ spec.line_text moment entry.now) }
{
    text.extend_from_slice(b"{")?;
    push_head(text, moment, &entry.command)?;
    push_actor(text, &entry.actor)?;
    push_members(alloc, text, &entry.command)?;
    text.extend_from_slice(b"}")?;
    Ok(())
}

// The moment and the word.
#[tactic(auto, unfolding(crate::specs::Lines::line_head))]
fn push_head(text: &mut Vec<u8>, moment: i64, command: &Command) -> Result<(), AllocError>
    ensures { OnOk result (text.new.items ≡ text.old.items ++ spec.line_head moment command.now) }
{
    push_label(text, "at")?;
    push_number(text, moment)?;
    more_plain(text, "do", word_of(command))
}

// The node whose transaction it is.
fn push_actor(text: &mut Vec<u8>, actor: &Actor) -> Result<(), AllocError>
    ensures { OnOk result (text.new.items ≡ text.old.items ++ spec.actor_member actor.now) }
{
    match actor {
        Actor::Client => Ok(()),
        Actor::Node(member) => more(text, "node", member.node.as_str()),
    }
}

// What the line has beside these.
fn push_members(alloc: Global, text: &mut Vec<u8>, command: &Command) -> Result<(), NoMemory>
    ensures { OnOk result (text.new.items ≡ text.old.items ++ spec.command_members command.now) }
{
    match command {
        Command::AddJob { job, replace } => Ok(add_job(text, job, *replace)?),
        Command::AddTrigger { spec, replace } => add_trigger(alloc, text, spec, *replace),
        Command::AddCalendar { calendar, replace } => add_calendar(alloc, text, calendar, *replace),
        Command::AddZone { zone } => Ok(add_zone(text, zone)?),
        Command::DeleteJob { key }
        | Command::DeleteTrigger { key }
        | Command::PauseTrigger { key }
        | Command::ResumeTrigger { key }
        | Command::ResetTrigger { key }
        | Command::TriggerNow { job: key } => Ok(name_key(text, key)?),
        Command::PauseGroup { group }
        | Command::ResumeGroup { group }
        | Command::PauseJobGroup { group }
        | Command::ResumeJobGroup { group } => Ok(more(text, "group", group.as_str())?),
        Command::DeleteCalendar { name } | Command::DeleteZone { name } => {
            Ok(more(text, "name", name.as_str())?)
        }
        Command::Threshold { ms } => Ok(more_number(text, "ms", *ms)?),
        Command::Join { node } => Ok(more(text, "node", node.as_str())?),
        Command::Recover { node } => Ok(more(text, "failed", node.as_str())?),
        Command::Acquire {
            no_later,
            window,
            max,
        } => Ok(acquire(text, *no_later, *window, *max)?),
        Command::Release { entry } | Command::Fire { entry } => Ok(name_entry(text, *entry)?),
        Command::Complete { entry, code } => Ok(complete(text, *entry, *code)?),
        Command::Leave | Command::Misfires | Command::Upgrade => Ok(()),
    }
}

#[tactic(auto, unfolding(crate::specs::Lines::replacing, crate::specs::Json::more))]
fn add_job(text: &mut Vec<u8>, job: &JobRow, replace: bool) -> Result<(), AllocError>
    ensures { OnOk result (text.new.items ≡ text.old.items ++ spec.command_members (Command.AddJob job.now replace)) }
{
    push_more(text, "job")?;
    push_job(text, job)?;
    more_set(text, "replace", replace)
}

#[tactic(auto, unfolding(crate::specs::Lines::replacing, crate::specs::Json::more))]
fn add_trigger(
    alloc: Global,
    text: &mut Vec<u8>,
    trigger: &TriggerSpec,
    replace: bool,
) -> Result<(), NoMemory>
    ensures { OnOk result (text.new.items ≡ text.old.items ++ spec.command_members (Command.AddTrigger trigger.now replace)) }
{
    push_more(text, "trigger")?;
    push_trigger(alloc, text, trigger)?;
    more_set(text, "replace", replace)?;
    Ok(())
}

#[tactic(auto, unfolding(crate::specs::Lines::replacing, crate::specs::Json::more))]
fn add_calendar(
    alloc: Global,
    text: &mut Vec<u8>,
    calendar: &CalendarRow,
    replace: bool,
) -> Result<(), NoMemory>
    ensures { OnOk result (text.new.items ≡ text.old.items ++ spec.command_members (Command.AddCalendar calendar.now replace)) }
{
    push_more(text, "calendar")?;
    push_calendar(alloc, text, calendar)?;
    more_set(text, "replace", replace)?;
    Ok(())
}

fn add_zone(text: &mut Vec<u8>, zone: &ZoneRow) -> Result<(), AllocError>
    ensures { OnOk result (text.new.items ≡ text.old.items ++ 44 ∷ zone_members zone.now) }
{
    text.extend_from_slice(b",")?;
    push_zone_members(text, zone)
}

#[tactic(auto, unfolding(crate::specs::Lines::key_of_line))]
fn name_key(text: &mut Vec<u8>, key: &Key) -> Result<(), AllocError>
    ensures { OnOk result (text.new.items ≡ text.old.items ++ spec.key_of_line key.now) }
{
    text.extend_from_slice(b",")?;
    push_key(text, key)
}

#[tactic(auto, unfolding(crate::specs::Lines::acquiring))]
fn acquire(text: &mut Vec<u8>, no_later: i64, window: i64, max: u32) -> Result<(), AllocError>
    ensures { OnOk result (text.new.items ≡ text.old.items ++ spec.acquiring no_later window max) }
{
    more_number(text, "no_later", no_later)?;
    unusual_number(text, "window", 0, window)?;
    unusual_number(text, "max", 1, i64::from(max))
}

#[tactic(auto, unfolding(crate::specs::Lines::entry_member))]
fn name_entry(text: &mut Vec<u8>, entry: u64) -> Result<(), AllocError>
    ensures { OnOk result (text.new.items ≡ text.old.items ++ spec.entry_member entry) }
{
    more_unsigned(text, "entry", entry)
}

fn complete(text: &mut Vec<u8>, entry: u64, code: Code) -> Result<(), AllocError>
    ensures { OnOk result (text.new.items ≡ text.old.items ++ spec.entry_member entry ++ spec.more_code code) }
{
    name_entry(text, entry)?;
    push_code(text, code)
}

fn push_code(text: &mut Vec<u8>, code: Code) -> Result<(), AllocError>
    ensures { OnOk result (text.new.items ≡ text.old.items ++ spec.more_code code) }
{
    match code {
        Code::Noop => Ok(()),
        other => more_plain(text, "code", code_word(other)),
    }
}

fn code_word(code: Code) -> &'static [u8]
    ensures { result.now ≡ spec.code_word code }
{
    match code {
        Code::Noop => b"NOOP",
        Code::ReExecuteJob => b"RE_EXECUTE_JOB",
        Code::SetTriggerComplete => b"SET_TRIGGER_COMPLETE",
        Code::DeleteTrigger => b"DELETE_TRIGGER",
        Code::SetAllJobTriggersComplete => b"SET_ALL_JOB_TRIGGERS_COMPLETE",
        Code::SetTriggerError => b"SET_TRIGGER_ERROR",
        Code::SetAllJobTriggersError => b"SET_ALL_JOB_TRIGGERS_ERROR",
    }
}

/// The word of the lines that ask for the command.
fn word_of(command: &Command) -> &'static [u8]
    ensures { result.now ≡ word_of_command command.now }
{
    match command {
        Command::AddJob { job: _, replace: _ } => b"add_job",
        Command::DeleteJob { key: _ } => b"delete_job",
        Command::AddTrigger {
            spec: _,
            replace: _,
        } => b"add_trigger",
        Command::DeleteTrigger { key: _ } => b"delete_trigger",
        Command::PauseTrigger { key: _ } => b"pause_trigger",
        Command::ResumeTrigger { key: _ } => b"resume_trigger",
        Command::PauseGroup { group: _ } => b"pause_group",
        Command::ResumeGroup { group: _ } => b"resume_group",
        Command::AddCalendar {
            calendar: _,
            replace: _,
        } => b"add_calendar",
        Command::DeleteCalendar { name: _ } => b"delete_calendar",
        Command::AddZone { zone: _ } => b"add_zone",
        Command::DeleteZone { name: _ } => b"delete_zone",
        Command::TriggerNow { job: _ } => b"trigger_now",
        Command::Threshold { ms: _ } => b"threshold",
        Command::Join { node: _ } => b"join",
        Command::Leave => b"leave",
        Command::Acquire {
            no_later: _,
            window: _,
            max: _,
        } => b"acquire",
        Command::Release { entry: _ } => b"release",
        Command::Fire { entry: _ } => b"fire",
        Command::Complete { entry: _, code: _ } => b"complete",
        Command::Misfires => b"misfires",
        Command::Recover { node: _ } => b"recover",
        Command::Upgrade => b"migrate",
        Command::ResetTrigger { key: _ } => b"reset_trigger",
        Command::PauseJobGroup { group: _ } => b"pause_job_group",
        Command::ResumeJobGroup { group: _ } => b"resume_job_group",
    }
}
