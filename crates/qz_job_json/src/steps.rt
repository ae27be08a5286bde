//! The step of a line by its own members.
ghost use Rattle.std.specs.Prelude.{◌≡◌, ◌⊎◌, Err, IsTrue, IfOk, IfSome, if◌then◌else◌};
ghost use Rattle.serde_json.specs.View.{view};
ghost use Rattle.qz_types.specs.Rows.{is_interval};
ghost use Rattle.qz_steps.specs.Steps.{is_step};
ghost use Rattle.qz_job_json.specs.Faults.{ReadsAs};
ghost use Rattle.qz_job_json.specs.Lines.{interval_at, step_by_word, step_of};

use crate::clients::client_command;
use crate::faults::{LineError, LineFault};
use crate::members::{integer_or, node_at};
use crate::nodes::{node_command, node_of};
use crate::untimed::untimed_step;
use crate::words::{ClientWord, NodeWord, StepWord, Word};
use qz_civil::beside;
use qz_steps::Step;
use qz_types::{INTERVAL_LIMIT, Text};
use serde_json::Value;
use std::alloc::Global;

/// How often a node will check in, in ms.
fn interval_at(value: &Value) -> Option<i64>
    ensures value { result ≡ interval_at (view value.now) }
    ensures valid { IfSome result (λ ms. IsTrue (is_interval ms)) }
{
    integer_or(value, "interval", 1, INTERVAL_LIMIT, 15000)
}

// A node that joins or checks in.
#[tactic(auto, unfolding(crate::specs::Lines::step_by_word))]
fn checking_in(alloc: Global, value: &Value, joins: bool) -> Result<Step, LineError>
    ensures value { ReadsAs result (step_by_word (if joins then StepWord.Join else StepWord.CheckIn) (view value.now)) }
    ensures valid { IfOk result (λ step. IsTrue (is_step step)) }
{
    let node = node_at(value, "node").ok_or(LineFault::Shape)?;
    let interval = interval_at(value).ok_or(LineFault::Shape)?;
    let node = Text::from_str(alloc, node)?;
    if joins {
        Ok(Step::Join { node, interval })
    } else {
        Ok(Step::CheckIn { node, interval })
    }
}

#[tactic(auto, unfolding(crate::specs::Lines::step_by_word))]
fn forget(alloc: Global, value: &Value) -> Result<Step, LineError>
    ensures value { ReadsAs result (step_by_word StepWord.Forget (view value.now)) }
    ensures valid { IfOk result (λ step. IsTrue (is_step step)) }
{
    let node = node_at(value, "node").ok_or(LineFault::Shape)?;
    let failed = node_at(value, "failed").ok_or(LineFault::Shape)?;
    let node = Text::from_str(alloc, node)?;
    let failed = Text::from_str(alloc, failed)?;
    Ok(Step::Forget { node, failed })
}

#[tactic(auto, unfolding(crate::specs::Lines::step_by_word))]
fn stop(alloc: Global, value: &Value) -> Result<Step, LineError>
    ensures value { ReadsAs result (step_by_word StepWord.Stop (view value.now)) }
    ensures valid { IfOk result (λ step. IsTrue (is_step step)) }
{
    let node = node_of(alloc, value, "node")?;
    Ok(Step::Stop { node })
}

// The step of a line that is neither a client's nor a command of a node.
#[tactic(auto, unfolding(crate::specs::Lines::step_by_word))]
fn step_by_word(alloc: Global, word: StepWord, value: &Value) -> Result<Step, LineError>
    ensures value { ReadsAs result (step_by_word word (view value.now)) }
    ensures valid { IfOk result (λ step. IsTrue (is_step step)) }
{
    match word {
        StepWord::Join => checking_in(alloc, value, true),
        StepWord::CheckIn => checking_in(alloc, value, false),
        StepWord::Forget => forget(alloc, value),
        StepWord::Stop => stop(alloc, value),
        StepWord::Restart => Ok(Step::Restart),
    }
}

#[tactic(auto, unfolding(crate::specs::Lines::step_of))]
fn client_step(alloc: Global, word: ClientWord, value: &Value) -> Result<Step, LineError>
    ensures value { ReadsAs result (step_of (Word.Client word) (view value.now)) }
    ensures valid { IfOk result (λ step. IsTrue (is_step step)) }
{
    let command = client_command(alloc, word, value)?;
    Ok(Step::Client(command))
}

#[tactic(auto, unfolding(crate::specs::Lines::step_of))]
fn node_step(alloc: Global, word: NodeWord, value: &Value) -> Result<Step, LineError>
    ensures value { ReadsAs result (step_of (Word.Node word) (view value.now)) }
    ensures valid { IfOk result (λ step. IsTrue (is_step step)) }
{
    let node = node_at(value, "node").ok_or(LineFault::Shape)?;
    let command = node_command(alloc, word, value)?;
    let (command, node) = beside(command, Text::from_str(alloc, node))?;
    Ok(Step::Node { node, command })
}

/// The step of a line.
#[tactic(auto, unfolding(crate::specs::Lines::step_of))]
pub(crate) fn step_of(alloc: Global, word: Word, value: &Value) -> Result<Step, LineError>
    ensures value { ReadsAs result (step_of word (view value.now)) }
    ensures valid { IfOk result (λ step. IsTrue (is_step step)) }
{
    match word {
        Word::Client(word) => client_step(alloc, word, value),
        Word::Node(word) => node_step(alloc, word, value),
        Word::Of(word) => step_by_word(alloc, word, value),
        Word::Untimed(word) => untimed_step(alloc, word, value),
    }
}
