//! The triggers in lines.
ghost use Rattle.std.specs.Prelude.{◌≡◌, ◌⊎◌, ◌≤ℤ◌, pos, negsuc, Err, IsTrue, IfOk, IfSome, option_map};
ghost use Rattle.serde_json.specs.View.{view};
ghost use Rattle.qz_civil.specs.Timings.{is_name, is_every, is_kind, is_misfire, is_timing, is_daily_time};
ghost use Rattle.qz_types.specs.Rows.{is_trigger_spec};
ghost use Rattle.qz_job_json.specs.Faults.{ReadsAs};
ghost use Rattle.qz_job_json.specs.Objects.{make_key};
ghost use Rattle.qz_job_json.specs.Schedules as spec;

use crate::clocks::{days_at, second_or};
use crate::faults::{LineError, LineFault};
use crate::forms::{Form, KindWord};
use crate::members::{
    flag_or, has_only, integer_or, name_or, number_at, optional_name_at, optional_span_at, span_at,
    text_at,
};
use crate::objects::{make_keys, names_at};
use qz_civil::{COUNT_LIMIT, DAY_SECONDS, EVERY_LIMIT, Kind, LONGEST, Timing, Unit, beside};
use qz_types::{Key, Text, TriggerSpec};
use serde_json::Value;
use std::alloc::{AllocError, Global};

#[tactic(auto, unfolding(crate::specs::Schedules::unit_of))]
fn unit_of(text: &str) -> Option<Unit>
    ensures { result ≡ spec.unit_of text.now }
{
    match text {
        "SECOND" => Some(Unit::Second),
        "MINUTE" => Some(Unit::Minute),
        "HOUR" => Some(Unit::Hour),
        "DAY" => Some(Unit::Day),
        "WEEK" => Some(Unit::Week),
        "MONTH" => Some(Unit::Month),
        "YEAR" => Some(Unit::Year),
        _ => None,
    }
}

fn unit_at(value: &Value) -> Option<Unit>
    ensures { result ≡ spec.unit_at (view value.now) }
{
    unit_of(text_at(value, "unit")?)
}

fn every_at(value: &Value) -> Option<u32>
    ensures value { result ≡ spec.every_at (view value.now) }
    ensures valid { IfSome result (λ every. IsTrue (is_every every)) }
{
    let every = number_at(value, "every")?;
    if 1 <= every && every <= u64::from(EVERY_LIMIT) {
        Some(every as u32)
    } else {
        None
    }
}

pub(crate) fn zone_at(value: &Value) -> Option<&str>
    ensures value { option_map (λ text. text.now) result ≡ spec.zone_at (view value.now) }
    ensures valid { IfSome result (λ text. IsTrue (is_name text.now)) }
{
    name_or(value, "zone", "UTC")
}

#[tactic(auto, unfolding(crate::specs::Schedules::simple_of))]
fn simple_of(value: &Value) -> Result<Kind, LineFault>
    ensures value { result ≡ spec.simple_of (view value.now) }
    ensures valid { IfOk result (λ kind. IsTrue (is_kind kind)) }
    ensures last { IfOk result (λ kind. spec.last_of kind ≡ pos 5) }
{
    let interval = integer_or(value, "interval", 0, LONGEST, 0).ok_or(LineFault::Shape)?;
    let count = integer_or(value, "count", -1, COUNT_LIMIT, 0).ok_or(LineFault::Shape)?;
    if interval == 0 && count != 0 {
        return Err(LineFault::Shape);
    }
    Ok(Kind::Simple { interval, count })
}

#[tactic(auto, unfolding(crate::specs::Schedules::cron_of))]
fn cron_of(alloc: Global, value: &Value) -> Result<Kind, LineError>
    ensures value { ReadsAs result (spec.cron_of (view value.now)) }
    ensures valid { IfOk result (λ kind. IsTrue (is_kind kind)) }
    ensures last { IfOk result (λ kind. spec.last_of kind ≡ pos 2) }
{
    let text = text_at(value, "cron").ok_or(LineFault::Shape)?;
    let zone = zone_at(value).ok_or(LineFault::Shape)?;
    let fields = qz_cron_text::parse(text).map_err(LineFault::Cron)?;
    let zone = Text::from_str(alloc, zone)?;
    Ok(Kind::Cron { fields, zone })
}

#[tactic(auto, unfolding(crate::specs::Schedules::interval_of))]
fn interval_of(alloc: Global, value: &Value) -> Result<Kind, LineError>
    ensures value { ReadsAs result (spec.interval_of (view value.now)) }
    ensures valid { IfOk result (λ kind. IsTrue (is_kind kind)) }
    ensures last { IfOk result (λ kind. spec.last_of kind ≡ pos 2) }
{
    let unit = unit_at(value).ok_or(LineFault::Shape)?;
    let every = every_at(value).ok_or(LineFault::Shape)?;
    let zone = zone_at(value).ok_or(LineFault::Shape)?;
    let preserve = flag_or(value, "preserveHourOfDay", true).ok_or(LineFault::Shape)?;
    let skip = flag_or(value, "skipDayIfHourDoesNotExist", true).ok_or(LineFault::Shape)?;
    let zone = Text::from_str(alloc, zone)?;
    Ok(Kind::Interval {
        unit,
        every,
        zone,
        preserve,
        skip,
    })
}

/// Whether the step is one of a second to a day, and the times are in their order.
fn is_daily_time(unit: Unit, every: u32, from: u32, to: u32) -> bool
    ensures { result ≡ is_daily_time unit every from to }
{
    unit.is_step(every) && from <= to && u64::from(to) < DAY_SECONDS
}

#[tactic(auto, unfolding(crate::specs::Schedules::daily_of))]
fn daily_of(alloc: Global, value: &Value) -> Result<Kind, LineError>
    ensures value { ReadsAs result (spec.daily_of (view value.now)) }
    ensures valid { IfOk result (λ kind. IsTrue (is_kind kind)) }
    ensures last { IfOk result (λ kind. spec.last_of kind ≡ pos 2) }
{
    let unit = unit_at(value).ok_or(LineFault::Shape)?;
    let every = every_at(value).ok_or(LineFault::Shape)?;
    let from = second_or(value, "from", 0).ok_or(LineFault::Shape)?;
    let to = second_or(value, "to", 86399).ok_or(LineFault::Shape)?;
    let days = days_at(value).ok_or(LineFault::Shape)?;
    let zone = zone_at(value).ok_or(LineFault::Shape)?;
    if !is_daily_time(unit, every, from, to) {
        return Err(LineError::Bad(LineFault::Shape));
    }
    let zone = Text::from_str(alloc, zone)?;
    Ok(Kind::Daily {
        unit,
        every,
        from,
        to,
        days,
        zone,
    })
}

fn kind_of(alloc: Global, value: &Value, word: KindWord) -> Result<Kind, LineError>
    ensures value { ReadsAs result (spec.kind_of word (view value.now)) }
    ensures valid { IfOk result (λ kind. IsTrue (is_kind kind)) }
    ensures last { IfOk result (λ kind. spec.last_of kind ≡ spec.last_misfire word) }
{
    match word {
        KindWord::Simple => Ok(simple_of(value)?),
        KindWord::Cron => cron_of(alloc, value),
        KindWord::Interval => interval_of(alloc, value),
        KindWord::Daily => daily_of(alloc, value),
    }
}

fn misfire_at(value: &Value, word: KindWord) -> Option<i8>
    ensures value { result ≡ spec.misfire_at word (view value.now) }
    ensures low { IfSome result (λ code. negsuc 0 ≤ℤ code) }
    ensures high { IfSome result (λ code. code ≤ℤ spec.last_misfire word) }
{
    let last = match word {
        KindWord::Simple => 5,
        KindWord::Cron | KindWord::Interval | KindWord::Daily => 2,
    };
    let code = integer_or(value, "misfire", -1, last, 0)?;
    Some(code as i8)
}

#[tactic(auto, using(crate::proofs::Units::misfires_to_last), unfolding(crate::specs::Schedules::timing_of))]
fn timing_of(alloc: Global, value: &Value, word: KindWord) -> Result<Timing, LineError>
    ensures value { ReadsAs result (spec.timing_of word (view value.now)) }
    ensures valid { IfOk result (λ timing. IsTrue (is_timing timing)) }
{
    let misfire = misfire_at(value, word).ok_or(LineFault::Shape)?;
    let start = span_at(value, "start").ok_or(LineFault::Shape)?;
    let end = optional_span_at(value, "end").ok_or(LineFault::Shape)?;
    let kind = kind_of(alloc, value, word)?;
    Ok(Timing {
        kind,
        misfire,
        start,
        end,
    })
}

fn priority_at(value: &Value) -> Option<i32>
    ensures { result ≡ spec.priority_at (view value.now) }
{
    let (low, high) = (i64::from(i32::MIN), i64::from(i32::MAX));
    let priority = integer_or(value, "priority", low, high, 5)?;
    Some(priority as i32)
}

/// Memory for the name of a calendar, if there is one.
pub(crate) fn make_calendar(alloc: Global, name: Option<&str>) -> Result<Option<Text>, AllocError>
    ensures { IfOk result (λ calendar. calendar ≡ option_map (λ text. text.now) name.entry) }
{
    match name {
        Some(name) => Ok(Some(Text::from_str(alloc, name)?)),
        None => Ok(None),
    }
}

/// Memory for the names of a trigger.
fn make_names(
    alloc: Global,
    key: (&str, &str),
    job: (&str, &str),
    calendar: Option<&str>,
) -> Result<(Option<Text>, (Key, Key)), AllocError>
    ensures calendar { IfOk result (λ made. made.0 ≡ option_map (λ text. text.now) calendar.entry) }
    ensures key { IfOk result (λ made. made.1.0 ≡ make_key key.entry.0.now key.entry.1.now) }
    ensures job { IfOk result (λ made. made.1.1 ≡ make_key job.entry.0.now job.entry.1.now) }
{
    let calendar = make_calendar(alloc, calendar)?;
    beside(calendar, make_keys(alloc, key, job))
}

/// A trigger of that kind.
#[tactic(auto, unfolding(crate::specs::Schedules::timed_trigger_of))]
fn timed_trigger_of(alloc: Global, value: &Value, word: KindWord) -> Result<TriggerSpec, LineError>
    ensures value { ReadsAs result (spec.timed_trigger_of word (view value.now)) }
    ensures valid { IfOk result (λ trigger. IsTrue (is_trigger_spec trigger)) }
{
    let key = names_at(value, "group", "name").ok_or(LineFault::Shape)?;
    let job = names_at(value, "job_group", "job").ok_or(LineFault::Shape)?;
    let priority = priority_at(value).ok_or(LineFault::Shape)?;
    let calendar = optional_name_at(value, "calendar").ok_or(LineFault::Shape)?;
    let timing = timing_of(alloc, value, word)?;
    let (timing, (calendar, (key, job))) = beside(timing, make_names(alloc, key, job, calendar))?;
    Ok(TriggerSpec {
        key,
        job,
        priority,
        calendar,
        timing,
    })
}

fn kind_word_at(value: &Value) -> Option<KindWord>
    ensures { result ≡ spec.kind_word_at (view value.now) }
{
    KindWord::of(text_at(value, "kind")?)
}

/// The trigger that the object is.
pub(crate) fn trigger_by_kind(alloc: Global, value: &Value) -> Result<TriggerSpec, LineError>
    ensures value { ReadsAs result (spec.trigger_by_kind (view value.now)) }
    ensures valid { IfOk result (λ trigger. IsTrue (is_trigger_spec trigger)) }
{
    let word = kind_word_at(value).ok_or(LineFault::Shape)?;
    if !has_only(value, Form::TriggerOf(word)) {
        return Err(LineError::Bad(LineFault::Shape));
    }
    timed_trigger_of(alloc, value, word)
}
