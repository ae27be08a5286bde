//! What members have in their hands, as it is printed.
ghost use Rattle.std.specs.Prelude.{◌≡◌, ◌++◌, OnOk, string_bytes};
ghost use Rattle.qz_report.specs.Rows as spec;

use crate::names::{push_key, push_name};
use crate::optional::Next;
use qz_types::{FiredRow, FiredState, Key, Text};
use std::alloc::AllocError;
use std::fmt::Write;

/// Adds a fired row: its entry number, the member that has it, its trigger, its state and its times.
#[tactic(auto, unfolding(crate::specs::Rows::fired_row_text))]
pub fn push_fired_row(text: &mut String, row: &FiredRow) -> Result<(), AllocError>
    ensures { OnOk result (string_bytes text.new ≡ string_bytes text.old ++ spec.fired_row_text row.now) }
{
    push_holder(text, row.entry, &row.node, row.epoch)?;
    push_trigger(text, &row.trigger, row.state)?;
    push_moments(text, row.scheduled, row.fired)
}

/// The entry number, and the member that has it.
#[tactic(auto, unfolding(crate::specs::Rows::fired_holder))]
fn push_holder(text: &mut String, entry: u64, node: &Text, epoch: u64) -> Result<(), AllocError>
    ensures { OnOk result (string_bytes text.new ≡ string_bytes text.old ++ spec.fired_holder entry node.now epoch) }
{
    write!(text, "{entry} ")?;
    push_name(text, node.as_str())?;
    write!(text, " {epoch}")
}

/// The trigger, and whether its execution has begun.
#[tactic(auto, unfolding(crate::specs::Rows::fired_trigger))]
fn push_trigger(text: &mut String, trigger: &Key, state: FiredState) -> Result<(), AllocError>
    ensures { OnOk result (string_bytes text.new ≡ string_bytes text.old ++ spec.fired_trigger trigger.now state) }
{
    text.push(' ')?;
    push_key(text, trigger)?;
    text.push(' ')?;
    text.push_str(word_of(state))
}

/// For when it was acquired, and when its execution began.
#[tactic(auto, unfolding(crate::specs::Rows::fired_moments))]
fn push_moments(text: &mut String, scheduled: i64, fired: Option<i64>) -> Result<(), AllocError>
    ensures { OnOk result (string_bytes text.new ≡ string_bytes text.old ++ spec.fired_moments scheduled fired) }
{
    let fired = Next(fired);
    write!(text, " scheduled {scheduled} at {fired}")
}

fn word_of(state: FiredState) -> &'static str
    ensures { result.now ≡ spec.fired_word state }
{
    match state {
        FiredState::Acquired => "ACQUIRED",
        FiredState::Executing => "EXECUTING",
    }
}
