//! Triggers, as they are printed.
ghost use Rattle.std.specs.Prelude.{◌≡◌, ◌++◌, ◌∷◌, [], OnOk, codes, string_bytes};
ghost use Rattle.std.specs.Fmt.{signed_decimal};
ghost use Rattle.qz_report.specs.Names.{key_text};
ghost use Rattle.qz_report.specs.Optional.{next_text};
ghost use Rattle.qz_report.specs.Rows as spec;

use crate::names::push_key;
use crate::optional::Next;
use qz_types::{Kind, TriggerRow, TriggerSpec, TriggerState};
use std::alloc::AllocError;
use std::fmt::Write;

/// Adds a trigger: its key and its job's, its state, its times, its priority, its start and the word of its kind.
#[tactic(auto, unfolding(crate::specs::Rows::trigger_text))]
pub fn push_trigger(text: &mut String, trigger: &TriggerRow) -> Result<(), AllocError>
    ensures { OnOk result (string_bytes text.new ≡ string_bytes text.old ++ spec.trigger_text trigger.now) }
{
    push_names(text, &trigger.spec, trigger.state)?;
    push_times(text, trigger.next, trigger.prev, trigger.times)?;
    push_timing(text, &trigger.spec)
}

/// The trigger, its job and its state.
#[tactic(auto, unfolding(crate::specs::Rows::trigger_names))]
fn push_names(
    text: &mut String,
    trigger: &TriggerSpec,
    state: TriggerState,
) -> Result<(), AllocError>
    ensures { OnOk result (string_bytes text.new ≡ string_bytes text.old ++ spec.trigger_names trigger.now state) }
{
    push_keys(text, trigger)?;
    text.push(' ')?;
    text.push_str(word_of(state))
}

fn push_keys(text: &mut String, trigger: &TriggerSpec) -> Result<(), AllocError>
    ensures { OnOk result (string_bytes text.new ≡ string_bytes text.old ++ codes "trigger " ++ key_text trigger.now.key ++ codes " job " ++ key_text trigger.now.job) }
{
    text.push_str("trigger ")?;
    push_key(text, &trigger.key)?;
    text.push_str(" job ")?;
    push_key(text, &trigger.job)
}

/// When it fires next, when it fired last, and how often.
#[tactic(auto, unfolding(crate::specs::Rows::trigger_times))]
fn push_times(
    text: &mut String,
    next: Option<i64>,
    prev: Option<i64>,
    times: u64,
) -> Result<(), AllocError>
    ensures { OnOk result (string_bytes text.new ≡ string_bytes text.old ++ spec.trigger_times next prev times) }
{
    push_next_and_prev(text, next, prev)?;
    write!(text, " times {times}")
}

fn push_next_and_prev(
    text: &mut String,
    next: Option<i64>,
    prev: Option<i64>,
) -> Result<(), AllocError>
    ensures { OnOk result (string_bytes text.new ≡ string_bytes text.old ++ codes " next " ++ next_text next ++ codes " prev " ++ next_text prev) }
{
    let next = Next(next);
    let prev = Next(prev);
    write!(text, " next {next} prev {prev}")
}

/// Its priority, its start and its kind.
#[tactic(auto, unfolding(crate::specs::Rows::trigger_timing))]
fn push_timing(text: &mut String, trigger: &TriggerSpec) -> Result<(), AllocError>
    ensures { OnOk result (string_bytes text.new ≡ string_bytes text.old ++ spec.trigger_timing trigger.now) }
{
    push_start(text, trigger.priority, trigger.timing.start)?;
    push_kind(text, &trigger.timing.kind)
}

fn push_start(text: &mut String, priority: i32, start: i64) -> Result<(), AllocError>
    ensures { OnOk result (string_bytes text.new ≡ string_bytes text.old ++ codes " priority " ++ signed_decimal priority ++ codes " start " ++ signed_decimal start ++ 32 ∷ []) }
{
    write!(text, " priority {priority} start {start} ")
}

fn push_kind(text: &mut String, kind: &Kind) -> Result<(), AllocError>
    ensures { OnOk result (string_bytes text.new ≡ string_bytes text.old ++ spec.kind_text kind.now) }
{
    match kind {
        Kind::Simple { interval: _, count } => write!(text, "simple {count}"),
        Kind::Cron { fields: _, zone: _ } => text.push_str("cron"),
        Kind::Interval {
            unit: _,
            every: _,
            zone: _,
            preserve: _,
            skip: _,
        } => text.push_str("interval"),
        Kind::Daily {
            unit: _,
            every: _,
            from: _,
            to: _,
            days: _,
            zone: _,
        } => text.push_str("daily"),
    }
}

fn word_of(state: TriggerState) -> &'static str
    ensures { result.now ≡ spec.state_word state }
{
    match state {
        TriggerState::Waiting => "WAITING",
        TriggerState::Acquired => "ACQUIRED",
        TriggerState::Complete => "COMPLETE",
        TriggerState::Blocked => "BLOCKED",
        TriggerState::Paused => "PAUSED",
        TriggerState::PausedBlocked => "PAUSED_BLOCKED",
        TriggerState::Error => "ERROR",
    }
}
