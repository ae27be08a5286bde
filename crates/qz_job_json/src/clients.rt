//! What a client asks for.
ghost use Rattle.std.specs.Prelude.{◌≡◌, ◌⊎◌, ◌≤ℤ◌, pos, Err, IsTrue, IfOk, IfSome};
ghost use Rattle.serde_json.specs.View.{view};
ghost use Rattle.qz_civil.specs.Timings.{is_name};
ghost use Rattle.qz_types.specs.Rows.{is_interval, is_key};
ghost use Rattle.qz_steps.specs.Steps.{is_step};
ghost use Rattle.qz_job_json.specs.Commands as spec;
ghost use Rattle.qz_job_json.specs.Faults.{ReadsAs, or_shape};
ghost use Rattle.qz_job_json.specs.Members.{name_at};

use crate::calendars::calendar_by_kind;
use crate::faults::{LineError, LineFault};
use crate::members::{flag_at, integer_in, name_at};
use crate::objects::{job_of, names_at};
use crate::schedules::trigger_by_kind;
use crate::words::{ClientWord, GroupWord, KeyWord, NameWord};
use crate::zones::zone_given;
use qz_civil::beside;
use qz_steps::Step;
use qz_types::{Command, INTERVAL_LIMIT, Key, Text, ZoneRow};
use serde_json::Value;
use std::alloc::Global;

#[tactic(auto, unfolding(crate::specs::Commands::add_job))]
fn add_job(alloc: Global, value: &Value) -> Result<Command, LineError>
    ensures value { ReadsAs result (spec.add_job (view value.now)) }
    ensures valid { IfOk result (λ command. IsTrue (is_step (Step.Client command))) }
{
    let replace = flag_at(value, "replace").ok_or(LineFault::Shape)?;
    let object = value.get("job").ok_or(LineFault::Shape)?;
    let job = job_of(alloc, object)?;
    Ok(Command::AddJob { job, replace })
}

#[tactic(auto, unfolding(crate::specs::Commands::add_trigger))]
fn add_trigger(alloc: Global, value: &Value) -> Result<Command, LineError>
    ensures value { ReadsAs result (spec.add_trigger (view value.now)) }
    ensures valid { IfOk result (λ command. IsTrue (is_step (Step.Client command))) }
{
    let replace = flag_at(value, "replace").ok_or(LineFault::Shape)?;
    let object = value.get("trigger").ok_or(LineFault::Shape)?;
    let spec = trigger_by_kind(alloc, object)?;
    Ok(Command::AddTrigger { spec, replace })
}

#[tactic(auto, unfolding(crate::specs::Commands::add_calendar))]
fn add_calendar(alloc: Global, value: &Value) -> Result<Command, LineError>
    ensures value { ReadsAs result (spec.add_calendar (view value.now)) }
    ensures valid { IfOk result (λ command. IsTrue (is_step (Step.Client command))) }
{
    let replace = flag_at(value, "replace").ok_or(LineFault::Shape)?;
    let object = value.get("calendar").ok_or(LineFault::Shape)?;
    let calendar = calendar_by_kind(alloc, object)?;
    Ok(Command::AddCalendar { calendar, replace })
}

#[tactic(auto, unfolding(crate::specs::Commands::add_zone))]
pub(crate) fn add_zone(alloc: Global, value: &Value) -> Result<Command, LineError>
    ensures value { ReadsAs result (spec.add_zone (view value.now)) }
    ensures valid { IfOk result (λ command. IsTrue (is_step (Step.Client command))) }
{
    let name = name_at(value, "name").ok_or(LineFault::Shape)?;
    let zone = zone_given(alloc, value)?;
    let (zone, name) = beside(zone, Text::from_str(alloc, name))?;
    let zone = ZoneRow { name, zone };
    Ok(Command::AddZone { zone })
}

fn of_key(word: KeyWord, key: Key) -> Command
    requires { IsTrue (is_key key) }
    ensures value { result ≡ spec.of_key word key }
    ensures valid { IsTrue (is_step (Step.Client result)) }
{
    match word {
        KeyWord::DeleteJob => Command::DeleteJob { key },
        KeyWord::DeleteTrigger => Command::DeleteTrigger { key },
        KeyWord::PauseTrigger => Command::PauseTrigger { key },
        KeyWord::ResumeTrigger => Command::ResumeTrigger { key },
        KeyWord::ResetTrigger => Command::ResetTrigger { key },
        KeyWord::TriggerNow => Command::TriggerNow { job: key },
    }
}

fn of_group(word: GroupWord, group: Text) -> Command
    requires { IsTrue (is_name group) }
    ensures value { result ≡ spec.of_group word group }
    ensures valid { IsTrue (is_step (Step.Client result)) }
{
    match word {
        GroupWord::PauseGroup => Command::PauseGroup { group },
        GroupWord::ResumeGroup => Command::ResumeGroup { group },
        GroupWord::PauseJobGroup => Command::PauseJobGroup { group },
        GroupWord::ResumeJobGroup => Command::ResumeJobGroup { group },
    }
}

fn of_name(word: NameWord, name: Text) -> Command
    requires { IsTrue (is_name name) }
    ensures value { result ≡ spec.of_name word name }
    ensures valid { IsTrue (is_step (Step.Client result)) }
{
    match word {
        NameWord::DeleteCalendar => Command::DeleteCalendar { name },
        NameWord::DeleteZone => Command::DeleteZone { name },
    }
}

/// The command on the job or trigger of the key that the line names.
fn key_command(alloc: Global, word: KeyWord, value: &Value) -> Result<Command, LineError>
    ensures value { ReadsAs result (spec.client_command (ClientWord.OfKey word) (view value.now)) }
    ensures valid { IfOk result (λ command. IsTrue (is_step (Step.Client command))) }
{
    let (group, name) = names_at(value, "group", "name").ok_or(LineFault::Shape)?;
    let key = Key::new(alloc, group, name)?;
    Ok(of_key(word, key))
}

/// The name under this name, in memory of its own.
fn text_of(alloc: Global, value: &Value, name: &str) -> Result<Text, LineError>
    ensures value { ReadsAs result (or_shape (name_at name.now (view value.now))) }
    ensures valid { IfOk result (λ text. IsTrue (is_name text)) }
{
    let text = name_at(value, name).ok_or(LineFault::Shape)?;
    Ok(Text::from_str(alloc, text)?)
}

/// The threshold under `ms`.
fn threshold_at(value: &Value) -> Option<i64>
    ensures value { result ≡ spec.threshold_at (view value.now) }
    ensures valid { IfSome result (λ ms. IsTrue (is_interval ms)) }
{
    integer_in(value.get("ms")?, 1, INTERVAL_LIMIT)
}

/// The command of a client's line.
pub(crate) fn client_command(
    alloc: Global,
    word: ClientWord,
    value: &Value,
) -> Result<Command, LineError>
    ensures value { ReadsAs result (spec.client_command word (view value.now)) }
    ensures valid { IfOk result (λ command. IsTrue (is_step (Step.Client command))) }
{
    match word {
        ClientWord::AddJob => add_job(alloc, value),
        ClientWord::AddTrigger => add_trigger(alloc, value),
        ClientWord::AddCalendar => add_calendar(alloc, value),
        ClientWord::AddZone => add_zone(alloc, value),
        ClientWord::OfKey(word) => key_command(alloc, word, value),
        ClientWord::OfGroup(word) => Ok(of_group(word, text_of(alloc, value, "group")?)),
        ClientWord::OfName(word) => Ok(of_name(word, text_of(alloc, value, "name")?)),
        ClientWord::Threshold => {
            let ms = threshold_at(value).ok_or(LineFault::Shape)?;
            Ok(Command::Threshold { ms })
        }
    }
}
