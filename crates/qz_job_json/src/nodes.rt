//! What a node does under its epoch.
ghost use Rattle.std.specs.Prelude.{◌≡◌, ◌⊎◌, ◌≤ℤ◌, ◌≤◌, pos, ◌&&◌, Err, IsTrue, IfOk, IfSome};
ghost use Rattle.serde_json.specs.View.{view};
ghost use Rattle.qz_civil.specs.Timings.{is_span};
ghost use Rattle.qz_types.specs.Entries.{is_command, is_of_node};
ghost use Rattle.qz_types.specs.Rows.{is_node};
ghost use Rattle.qz_job_json.specs.Commands as spec;
ghost use Rattle.qz_job_json.specs.Faults.{ReadsAs, or_shape};
ghost use Rattle.qz_job_json.specs.Members.{node_at};

use crate::clocks::number_to;
use crate::faults::{LineError, LineFault};
use crate::members::{integer_or, node_at, number_at, span_at};
use crate::words::{NodeWord, code_of};
use qz_types::{ACQUIRE_LIMIT, Code, Command, LONGEST, Text};
use serde_json::Value;
use std::alloc::Global;

/// The window of an acquire, in ms.
fn window_at(value: &Value) -> Option<i64>
    ensures value { result ≡ spec.window_at (view value.now) }
    ensures valid { IfSome result (λ ms. IsTrue (is_span ms)) }
{
    integer_or(value, "window", 0, LONGEST, 0)
}

/// How many triggers an acquire takes at most.
fn max_at(value: &Value) -> Option<u32>
    ensures value { result ≡ spec.max_at (view value.now) }
    ensures low { IfSome result (λ n. 1 ≤ n) }
    ensures high { IfSome result (λ n. n ≤ ACQUIRE_LIMIT) }
{
    match value.get("max") {
        Some(member) => number_to(member, ACQUIRE_LIMIT),
        None => Some(1),
    }
}

/// The code with which an execution ends.
fn code_at(value: &Value) -> Option<Code>
    ensures { result ≡ spec.code_at (view value.now) }
{
    match value.get("code") {
        Some(member) => code_of(member.as_str()?),
        None => Some(Code::Noop),
    }
}

pub(crate) fn entry_at(value: &Value) -> Option<u64>
    ensures { result ≡ spec.entry_at (view value.now) }
{
    number_at(value, "entry")
}

#[tactic(auto, unfolding(crate::specs::Commands::acquire))]
fn acquire(value: &Value) -> Result<Command, LineFault>
    ensures value { result ≡ spec.acquire (view value.now) }
    ensures valid { IfOk result (λ command. IsTrue (is_command command && is_of_node command)) }
{
    let no_later = span_at(value, "no_later").ok_or(LineFault::Shape)?;
    let window = window_at(value).ok_or(LineFault::Shape)?;
    let max = max_at(value).ok_or(LineFault::Shape)?;
    Ok(Command::Acquire {
        no_later,
        window,
        max,
    })
}

#[tactic(auto, unfolding(crate::specs::Commands::complete))]
fn complete(value: &Value) -> Result<Command, LineFault>
    ensures value { result ≡ spec.complete (view value.now) }
    ensures valid { IfOk result (λ command. IsTrue (is_command command && is_of_node command)) }
{
    let entry = entry_at(value).ok_or(LineFault::Shape)?;
    let code = code_at(value).ok_or(LineFault::Shape)?;
    Ok(Command::Complete { entry, code })
}

/// The node under this name, in memory of its own.
pub(crate) fn node_of(alloc: Global, value: &Value, name: &str) -> Result<Text, LineError>
    ensures value { ReadsAs result (or_shape (node_at name.now (view value.now))) }
    ensures valid { IfOk result (λ node. IsTrue (is_node node)) }
{
    let node = node_at(value, name).ok_or(LineFault::Shape)?;
    Ok(Text::from_str(alloc, node)?)
}

/// The command of a node's line.
pub(crate) fn node_command(
    alloc: Global,
    word: NodeWord,
    value: &Value,
) -> Result<Command, LineError>
    ensures value { ReadsAs result (spec.node_command word (view value.now)) }
    ensures valid { IfOk result (λ command. IsTrue (is_command command && is_of_node command)) }
{
    match word {
        NodeWord::Leave => Ok(Command::Leave),
        NodeWord::Acquire => Ok(acquire(value)?),
        NodeWord::Release => {
            let entry = entry_at(value).ok_or(LineFault::Shape)?;
            Ok(Command::Release { entry })
        }
        NodeWord::Fire => {
            let entry = entry_at(value).ok_or(LineFault::Shape)?;
            Ok(Command::Fire { entry })
        }
        NodeWord::Complete => Ok(complete(value)?),
        NodeWord::Misfires => Ok(Command::Misfires),
        NodeWord::Recover => {
            let node = node_of(alloc, value, "failed")?;
            Ok(Command::Recover { node })
        }
    }
}
