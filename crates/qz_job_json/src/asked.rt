//! Lines of `times`.
ghost use Rattle.std.specs.Prelude.{◌≡◌, ◌⊎◌, Err, Bool, true, IsTrue, IfOk, IfSome};
ghost use Rattle.serde_json.specs.View.{view};
ghost use Rattle.qz_types.specs.Entries.{is_command};
ghost use Rattle.qz_types.specs.Rows.{is_trigger_spec};
ghost use Rattle.qz_steps.specs.Steps.{is_step};
ghost use Rattle.qz_job_json.specs.Asked as spec;
ghost use Rattle.qz_job_json.specs.Lines.{ReadsLineAs, meaning_of_value};

use crate::faults::{LineError, LineFault};
use crate::lines::{Given, json_of, read_value};
use qz_steps::Step;
use qz_types::{CalendarRow, Command, TriggerSpec, ZoneRow};
use serde_json::Value;
use std::alloc::Global;

/// What a line of `times` asks for.
#[derive(Drop)]
pub enum Asked {
    /// A zone.
    AddZone {
        zone: ZoneRow,
    },
    /// A calendar, in place of one of its name if that is wanted.
    AddCalendar {
        calendar: CalendarRow,
        replace: bool,
    },
    /// The fire times of a trigger.
    AddTrigger {
        spec: TriggerSpec,
    },
}

/// Reads a line of `times`, which has no line feed. None is a blank line: it has only spaces, tabs and carriage returns.
pub fn read_asked(alloc: Global, line: &[u8]) -> Result<Option<Asked>, LineError>
    ensures meaning { ReadsLineAs result line.now (spec.asked_meaning line.now) }
    ensures valid { IfOk result (λ asked. IfSome asked (λ a. IsTrue (spec.is_asked a))) }
{
    match json_of(alloc, line)? {
        Some(value) => asked_by_value(alloc, &value).map(Some),
        None => Ok(None),
    }
}

/// What a line asks for whose JSON value this is. It is read as a line of a script first.
fn asked_by_value(alloc: Global, value: &Value) -> Result<Asked, LineError>
    ensures meaning { spec.ReadsAskedAs result (meaning_of_value (view value.now)) }
    ensures valid { IfOk result (λ asked. IsTrue (spec.is_asked asked)) }
{
    let Given { at: _, step } = read_value(alloc, value)?;
    Ok(asked_of(step)?)
}

/// What a step asks for in `times`.
fn asked_of(step: Step) -> Result<Asked, LineFault>
    requires { IsTrue (is_step step) }
    ensures value { result ≡ spec.asked_of step }
    ensures valid { IfOk result (λ asked. IsTrue (spec.is_asked asked)) }
{
    match step {
        Step::Client(command) => asked_of_command(command),
        other => {
            drop(other);
            Err(LineFault::NotHere)
        }
    }
}

/// The same of a client's command. A trigger isn't stored, and so replaces none.
fn asked_of_command(command: Command) -> Result<Asked, LineFault>
    requires { IsTrue (is_command command) }
    ensures value { result ≡ spec.asked_of_command command }
    ensures valid { IfOk result (λ asked. IsTrue (spec.is_asked asked)) }
{
    match command {
        Command::AddZone { zone } => Ok(Asked::AddZone { zone }),
        Command::AddCalendar { calendar, replace } => Ok(Asked::AddCalendar { calendar, replace }),
        Command::AddTrigger { spec, replace: _ } => Ok(Asked::AddTrigger { spec }),
        other => {
            drop(other);
            Err(LineFault::NotHere)
        }
    }
}
