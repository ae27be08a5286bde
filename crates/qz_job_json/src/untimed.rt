//! Lines that take no reading of the clock.
ghost use Rattle.std.specs.Prelude.{◌≡◌, ◌⊎◌, Err, IsTrue, IfOk, codes};
ghost use Rattle.serde_json.specs.View.{view};
ghost use Rattle.qz_types.specs.Rows.{is_key};
ghost use Rattle.qz_steps.specs.Steps.{is_step};
ghost use Rattle.qz_job_json.specs.Faults.{ReadsAs, or_shape};
ghost use Rattle.qz_job_json.specs.Lines.{untimed_step};
ghost use Rattle.qz_job_json.specs.Objects.{key_at};

use crate::faults::{LineError, LineFault};
use crate::members::{node_at, number_at};
use crate::nodes::entry_at;
use crate::objects::names_at;
use crate::words::UntimedWord;
use qz_steps::{Question, Step};
use qz_types::{Key, Text};
use serde_json::Value;
use std::alloc::Global;

/// The key that the line names, in memory of its own.
fn key_of(alloc: Global, value: &Value) -> Result<Key, LineError>
    ensures value { ReadsAs result (or_shape (key_at (codes "group") (codes "name") (view value.now))) }
    ensures valid { IfOk result (λ key. IsTrue (is_key key)) }
{
    let (group, name) = names_at(value, "group", "name").ok_or(LineFault::Shape)?;
    Ok(Key::new(alloc, group, name)?)
}

// A node that goes on under the epoch that it kept.
#[tactic(auto, unfolding(crate::specs::Lines::untimed_step))]
fn resume(alloc: Global, value: &Value) -> Result<Step, LineError>
    ensures value { ReadsAs result (untimed_step UntimedWord.Resume (view value.now)) }
    ensures valid { IfOk result (λ step. IsTrue (is_step step)) }
{
    let node = node_at(value, "node").ok_or(LineFault::Shape)?;
    let epoch = number_at(value, "epoch").ok_or(LineFault::Shape)?;
    let node = Text::from_str(alloc, node)?;
    Ok(Step::Resume { node, epoch })
}

/// The step of a line that takes no reading of the clock.
#[tactic(auto, unfolding(crate::specs::Lines::untimed_step))]
pub(crate) fn untimed_step(
    alloc: Global,
    word: UntimedWord,
    value: &Value,
) -> Result<Step, LineError>
    ensures value { ReadsAs result (untimed_step word (view value.now)) }
    ensures valid { IfOk result (λ step. IsTrue (is_step step)) }
{
    match word {
        UntimedWord::ShowJob => Ok(Step::Show(Question::Job(key_of(alloc, value)?))),
        UntimedWord::ShowTrigger => Ok(Step::Show(Question::Trigger(key_of(alloc, value)?))),
        UntimedWord::ShowEntry => {
            let entry = entry_at(value).ok_or(LineFault::Shape)?;
            Ok(Step::Show(Question::Entry(entry)))
        }
        UntimedWord::ShowNext => Ok(Step::Show(Question::Next)),
        UntimedWord::Resume => resume(alloc, value),
        UntimedWord::Checkpoint => Ok(Step::Checkpoint),
        UntimedWord::ShowRoom => Ok(Step::ShowRoom),
    }
}
