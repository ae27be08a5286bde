//! Answers to questions about the stored rows.
ghost use Rattle.std.specs.Prelude.{◌≡◌, ◌++◌, OnOk, codes, string_bytes};
ghost use Rattle.std.specs.Fmt.{signed_decimal};
ghost use Rattle.qz_report.specs.Optional.{optional_name_text};
ghost use Rattle.qz_report.specs.Shown as spec;

use crate::fired::push_fired_row;
use crate::jobs::push_job;
use crate::names::{push_key, push_name};
use crate::optional::{Next, push_optional_name};
use crate::triggers::push_trigger;
use qz_steps::{Shown, ShownEntry};
use qz_types::{JobRow, Key, Kind, Text, TriggerRow, TriggerSpec};
use std::alloc::AllocError;
use std::fmt::Write;

/// Adds what a question is answered.
pub(crate) fn push_shown(text: &mut String, shown: &Shown) -> Result<(), AllocError>
    ensures { OnOk result (string_bytes text.new ≡ string_bytes text.old ++ spec.shown_text shown.now) }
{
    match shown {
        Shown::Job(job) => push_shown_job(text, job),
        Shown::Trigger(trigger) => push_shown_trigger(text, trigger),
        Shown::Entry(entry) => push_shown_entry(text, entry),
        Shown::Next(next) => {
            let next = Next(*next);
            write!(text, "next {next}")
        }
    }
}

fn push_shown_job(text: &mut String, job: &Option<JobRow>) -> Result<(), AllocError>
    ensures { OnOk result (string_bytes text.new ≡ string_bytes text.old ++ spec.shown_job job.now) }
{
    match job {
        Some(job) => {
            push_job(text, job)?;
            push_data(text, &job.payload)
        }
        None => text.push_str("job none"),
    }
}

/// What a job is given to execute, and `%` where that is empty.
#[tactic(auto, unfolding(crate::specs::Shown::job_data))]
fn push_data(text: &mut String, payload: &Text) -> Result<(), AllocError>
    ensures { OnOk result (string_bytes text.new ≡ string_bytes text.old ++ spec.job_data payload.now) }
{
    text.push_str(" data ")?;
    push_data_text(text, payload.as_str())
}

fn push_data_text(text: &mut String, payload: &str) -> Result<(), AllocError>
    ensures { OnOk result (string_bytes text.new ≡ string_bytes text.old ++ spec.data_text payload.now) }
{
    if payload.is_empty() {
        text.push('%')
    } else {
        push_name(text, payload)
    }
}

fn push_shown_trigger(text: &mut String, trigger: &Option<TriggerRow>) -> Result<(), AllocError>
    ensures { OnOk result (string_bytes text.new ≡ string_bytes text.old ++ spec.shown_trigger trigger.now) }
{
    match trigger {
        Some(trigger) => {
            push_trigger(text, trigger)?;
            push_plan(text, &trigger.spec)
        }
        None => text.push_str("trigger none"),
    }
}

/// Its misfire instruction, its calendar and its zone.
#[tactic(auto, unfolding(crate::specs::Shown::trigger_plan))]
fn push_plan(text: &mut String, trigger: &TriggerSpec) -> Result<(), AllocError>
    ensures { OnOk result (string_bytes text.new ≡ string_bytes text.old ++ spec.trigger_plan trigger.now) }
{
    push_misfire(text, trigger.timing.misfire)?;
    push_calendar(text, &trigger.calendar)?;
    text.push_str(" zone ")?;
    push_zone(text, &trigger.timing.kind)
}

fn push_misfire(text: &mut String, misfire: i8) -> Result<(), AllocError>
    ensures { OnOk result (string_bytes text.new ≡ string_bytes text.old ++ codes " misfire " ++ signed_decimal misfire) }
{
    write!(text, " misfire {misfire}")
}

fn push_calendar(text: &mut String, calendar: &Option<Text>) -> Result<(), AllocError>
    ensures { OnOk result (string_bytes text.new ≡ string_bytes text.old ++ codes " calendar " ++ optional_name_text calendar.now) }
{
    text.push_str(" calendar ")?;
    push_optional_name(text, calendar)
}

fn push_zone(text: &mut String, kind: &Kind) -> Result<(), AllocError>
    ensures { OnOk result (string_bytes text.new ≡ string_bytes text.old ++ spec.zone_text kind.now) }
{
    match kind {
        Kind::Simple {
            interval: _,
            count: _,
        } => text.push_str("none"),
        Kind::Cron { fields: _, zone } => push_name(text, zone.as_str()),
        Kind::Interval {
            unit: _,
            every: _,
            zone,
            preserve: _,
            skip: _,
        } => push_name(text, zone.as_str()),
        Kind::Daily {
            unit: _,
            every: _,
            from: _,
            to: _,
            days: _,
            zone,
        } => push_name(text, zone.as_str()),
    }
}

fn push_shown_entry(text: &mut String, entry: &Option<ShownEntry>) -> Result<(), AllocError>
    ensures { OnOk result (string_bytes text.new ≡ string_bytes text.old ++ spec.shown_entry entry.now) }
{
    match entry {
        Some(entry) => {
            text.push_str("entry ")?;
            push_fired_row(text, &entry.row)?;
            push_entry_job(text, &entry.row.job, &entry.job)
        }
        None => text.push_str("entry none"),
    }
}

#[tactic(auto, unfolding(crate::specs::Shown::entry_job))]
fn push_entry_job(text: &mut String, key: &Key, job: &Option<JobRow>) -> Result<(), AllocError>
    ensures { OnOk result (string_bytes text.new ≡ string_bytes text.old ++ spec.entry_job key.now job.now) }
{
    text.push_str(" job ")?;
    push_key(text, key)?;
    push_work(text, job)
}

/// The class of a job and what it is given, if it is stored.
fn push_work(text: &mut String, job: &Option<JobRow>) -> Result<(), AllocError>
    ensures { OnOk result (string_bytes text.new ≡ string_bytes text.old ++ spec.work_text job.now) }
{
    match job {
        Some(job) => {
            text.push(' ')?;
            push_name(text, job.class.as_str())?;
            push_data(text, &job.payload)
        }
        None => text.push_str(" none"),
    }
}
