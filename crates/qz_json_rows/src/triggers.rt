//! Triggers, as a client gives them.
ghost use Rattle.std.specs.Prelude.{◌≡◌, ◌++◌, OnOk, codes};
ghost use Rattle.qz_json_rows.specs.Json.{more_unset};
ghost use Rattle.qz_json_rows.specs.Triggers as spec;

use crate::calendars::push_cron;
use crate::jobs::push_key;
use crate::members::{
    more, more_named, more_number, more_plain, more_timed, more_unset, more_unsigned,
    unusual_number, unusual_text,
};
use crate::numbers::{unusual_clock, unusual_days};
use qz_civil::{CronFields, Kind, Timing, Unit};
use qz_types::{Key, NoMemory, Text, TriggerSpec};
use std::alloc::{AllocError, Global};

/// Adds a trigger, as documents have it. A cron text takes memory of its own while it is printed.
pub fn push_trigger(
    alloc: Global,
    text: &mut Vec<u8>,
    trigger: &TriggerSpec,
) -> Result<(), NoMemory>
    ensures { OnOk result (text.new.items ≡ text.old.items ++ spec.trigger_text trigger.now) }
{
    text.extend_from_slice(b"{")?;
    push_trigger_members(alloc, text, trigger)?;
    text.extend_from_slice(b"}")?;
    Ok(())
}

/// Adds the members of a trigger, which come first in their object.
#[tactic(auto, unfolding(crate::specs::Triggers::trigger_members))]
pub fn push_trigger_members(
    alloc: Global,
    text: &mut Vec<u8>,
    trigger: &TriggerSpec,
) -> Result<(), NoMemory>
    ensures { OnOk result (text.new.items ≡ text.old.items ++ spec.trigger_members trigger.now) }
{
    push_keys(text, &trigger.key, &trigger.job)?;
    push_choice(
        text,
        trigger.priority,
        &trigger.calendar,
        trigger.timing.misfire,
    )?;
    push_timing(alloc, text, &trigger.timing)
}

// Its own key, and its job's.
#[tactic(auto, unfolding(crate::specs::Triggers::keys_members))]
fn push_keys(text: &mut Vec<u8>, key: &Key, job: &Key) -> Result<(), AllocError>
    ensures { OnOk result (text.new.items ≡ text.old.items ++ spec.keys_members key.now job.now) }
{
    push_key(text, key)?;
    more(text, "job", job.name.as_str())?;
    unusual_text(text, "job_group", "DEFAULT", job.group.as_str())
}

#[tactic(auto, unfolding(crate::specs::Triggers::choice_members))]
fn push_choice(
    text: &mut Vec<u8>,
    priority: i32,
    calendar: &Option<Text>,
    misfire: i8,
) -> Result<(), AllocError>
    ensures { OnOk result (text.new.items ≡ text.old.items ++ spec.choice_members priority calendar.now misfire) }
{
    unusual_number(text, "priority", 5, i64::from(priority))?;
    more_named(text, "calendar", calendar)?;
    unusual_number(text, "misfire", 0, i64::from(misfire))
}

// When it fires.
#[tactic(auto, unfolding(crate::specs::Triggers::timing_members))]
fn push_timing(alloc: Global, text: &mut Vec<u8>, timing: &Timing) -> Result<(), NoMemory>
    ensures { OnOk result (text.new.items ≡ text.old.items ++ spec.timing_members timing.now) }
{
    more_number(text, "start", timing.start)?;
    more_timed(text, "end", timing.end)?;
    more_plain(text, "kind", word_of(&timing.kind))?;
    push_kind(alloc, text, &timing.kind)
}

fn word_of(kind: &Kind) -> &'static [u8]
    ensures { result.now ≡ spec.kind_word kind.now }
{
    match kind {
        Kind::Simple {
            interval: _,
            count: _,
        } => b"simple",
        Kind::Cron { fields: _, zone: _ } => b"cron",
        Kind::Interval {
            unit: _,
            every: _,
            zone: _,
            preserve: _,
            skip: _,
        } => b"interval",
        Kind::Daily {
            unit: _,
            every: _,
            from: _,
            to: _,
            days: _,
            zone: _,
        } => b"daily",
    }
}

fn push_kind(alloc: Global, text: &mut Vec<u8>, kind: &Kind) -> Result<(), NoMemory>
    ensures { OnOk result (text.new.items ≡ text.old.items ++ spec.kind_members kind.now) }
{
    match kind {
        Kind::Simple { interval, count } => Ok(push_simple(text, *interval, *count)?),
        Kind::Cron { fields, zone } => push_cron_kind(alloc, text, fields, zone),
        Kind::Interval {
            unit,
            every,
            zone,
            preserve,
            skip,
        } => {
            push_step(text, *unit, *every)?;
            push_interval(text, zone, *preserve, *skip)?;
            Ok(())
        }
        Kind::Daily {
            unit,
            every,
            from,
            to,
            days,
            zone,
        } => {
            push_step(text, *unit, *every)?;
            push_daily(text, *from, *to, *days, zone)?;
            Ok(())
        }
    }
}

#[tactic(auto, unfolding(crate::specs::Triggers::simple_members))]
fn push_simple(text: &mut Vec<u8>, interval: i64, count: i64) -> Result<(), AllocError>
    ensures { OnOk result (text.new.items ≡ text.old.items ++ spec.simple_members interval count) }
{
    unusual_number(text, "interval", 0, interval)?;
    unusual_number(text, "count", 0, count)
}

#[tactic(auto, unfolding(crate::specs::Triggers::cron_members))]
fn push_cron_kind(
    alloc: Global,
    text: &mut Vec<u8>,
    fields: &CronFields,
    zone: &Text,
) -> Result<(), NoMemory>
    ensures { OnOk result (text.new.items ≡ text.old.items ++ spec.cron_members fields.now zone.now) }
{
    push_cron(alloc, text, fields)?;
    push_zone_name(text, zone)?;
    Ok(())
}

#[tactic(auto, unfolding(crate::specs::Triggers::zone_member))]
fn push_zone_name(text: &mut Vec<u8>, zone: &Text) -> Result<(), AllocError>
    ensures { OnOk result (text.new.items ≡ text.old.items ++ spec.zone_member zone.now) }
{
    unusual_text(text, "zone", "UTC", zone.as_str())
}

#[tactic(auto, unfolding(crate::specs::Triggers::step_members))]
fn push_step(text: &mut Vec<u8>, unit: Unit, every: u32) -> Result<(), AllocError>
    ensures { OnOk result (text.new.items ≡ text.old.items ++ spec.step_members unit every) }
{
    more_plain(text, "unit", unit_word(unit))?;
    more_unsigned(text, "every", u64::from(every))
}

fn unit_word(unit: Unit) -> &'static [u8]
    ensures { result.now ≡ spec.unit_word unit }
{
    match unit {
        Unit::Second => b"SECOND",
        Unit::Minute => b"MINUTE",
        Unit::Hour => b"HOUR",
        Unit::Day => b"DAY",
        Unit::Week => b"WEEK",
        Unit::Month => b"MONTH",
        Unit::Year => b"YEAR",
    }
}

#[tactic(auto, unfolding(crate::specs::Triggers::interval_members))]
fn push_interval(
    text: &mut Vec<u8>,
    zone: &Text,
    preserve: bool,
    skip: bool,
) -> Result<(), AllocError>
    ensures { OnOk result (text.new.items ≡ text.old.items ++ spec.interval_members zone.now preserve skip) }
{
    push_zone_name(text, zone)?;
    push_flags(text, preserve, skip)
}

// Quartz's names of the two flags.
#[tactic(auto, unfolding(crate::specs::Triggers::flag_members))]
fn push_flags(text: &mut Vec<u8>, preserve: bool, skip: bool) -> Result<(), AllocError>
    ensures { OnOk result (text.new.items ≡ text.old.items ++ spec.flag_members preserve skip) }
{
    push_preserve(text, preserve)?;
    push_skip(text, skip)
}

fn push_preserve(text: &mut Vec<u8>, preserve: bool) -> Result<(), AllocError>
    ensures { OnOk result (text.new.items ≡ text.old.items ++ more_unset (codes "preserveHourOfDay") preserve) }
{
    more_unset(text, "preserveHourOfDay", preserve)
}

fn push_skip(text: &mut Vec<u8>, skip: bool) -> Result<(), AllocError>
    ensures { OnOk result (text.new.items ≡ text.old.items ++ more_unset (codes "skipDayIfHourDoesNotExist") skip) }
{
    more_unset(text, "skipDayIfHourDoesNotExist", skip)
}

#[tactic(auto, unfolding(crate::specs::Triggers::daily_members))]
fn push_daily(
    text: &mut Vec<u8>,
    from: u32,
    to: u32,
    days: u8,
    zone: &Text,
) -> Result<(), AllocError>
    ensures { OnOk result (text.new.items ≡ text.old.items ++ spec.daily_members from to days zone.now) }
{
    unusual_clock(text, "from", 0, from)?;
    unusual_clock(text, "to", 86399, to)?;
    unusual_days(text, "days", 127, days)?;
    push_zone_name(text, zone)
}
