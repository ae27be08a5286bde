//! The triggers that are made.
ghost use Rattle.std.specs.Prelude.{◌≡◌, ◌++◌, ◌∷◌, ◌<◌, ◌^◌, IfOk, IsTrue};
ghost use Rattle.std.specs.Fmt.{decimal};
ghost use Rattle.qz_civil.specs.Fields.{is_cron_fields};
ghost use Rattle.qz_civil.specs.Timings.{is_kind, is_name};
ghost use Rattle.qz_types.specs.Rows.{is_key, is_trigger_spec};
ghost use Rattle.qz_generator.specs.Choices.{is_choice, is_schedule};
ghost use Rattle.qz_generator.specs.Commands as spec;

use crate::choices::{Choice, Schedule};
use crate::jobs::job_key;
use crate::limits::FIRST_MOMENT;
use qz_civil::{CronFields, DayField, WeekField, beside};
use qz_types::{Key, Kind, Text, Timing, TriggerSpec, Unit};
use std::alloc::{AllocError, Global};

/// `t` and the number, in the group DEFAULT.
fn trigger_key(alloc: Global, number: u32) -> Result<Key, AllocError>
    ensures value { IfOk result (λ key. key ≡ spec.trigger_key number) }
    ensures valid { IfOk result (λ key. IsTrue (is_key key)) }
{
    let name = format!(in alloc; "t{number}")?;
    Key::new(alloc, "DEFAULT", name.as_str())
}

/// The fields of `0 MINUTE HOUR * * ?`.
#[tactic(auto, unfolding(crate::specs::Commands::daily_fields))]
fn daily_fields(minute: u32, hour: u32) -> CronFields
    requires minute { minute < 60 }
    requires hour { hour < 24 }
    ensures value { result ≡ spec.daily_fields minute hour }
    ensures valid { IsTrue (is_cron_fields result) }
{
    CronFields {
        seconds: 1,
        minutes: 1 << minute,
        hours: 1 << hour,
        day: DayField::Set(0x7FFF_FFFF),
        months: 0xFFF,
        week: WeekField::Any,
        years: [u64::MAX, u64::MAX, u64::MAX, 274877906943],
    }
}

#[tactic(auto, using(crate::proofs::Valid::daily_valid))]
fn make_kind(alloc: Global, schedule: Schedule) -> Result<Kind, AllocError>
    requires { IsTrue (is_schedule schedule) }
    ensures value { IfOk result (λ kind. kind ≡ spec.kind_of schedule) }
    ensures valid { IfOk result (λ kind. IsTrue (is_kind kind)) }
{
    match schedule {
        Schedule::Simple { minutes } => Ok(Kind::Simple {
            interval: 60000 * i64::from(minutes),
            count: -1,
        }),
        Schedule::Cron { minute, hour } => Ok(Kind::Cron {
            fields: daily_fields(minute, hour),
            zone: Text::from_str(alloc, "UTC")?,
        }),
        Schedule::Interval { hours } => Ok(Kind::Interval {
            unit: Unit::Hour,
            every: hours,
            zone: Text::from_str(alloc, "UTC")?,
            preserve: true,
            skip: true,
        }),
        Schedule::Daily { minutes } => Ok(Kind::Daily {
            unit: Unit::Minute,
            every: minutes,
            from: 0,
            to: 86399,
            days: 127,
            zone: Text::from_str(alloc, "UTC")?,
        }),
    }
}

/// The trigger of this number, of the job of this number.
#[tactic(auto, unfolding(crate::specs::Commands::trigger_of))]
pub(crate) fn make_trigger(
    alloc: Global,
    number: u32,
    choice: &Choice,
) -> Result<TriggerSpec, AllocError>
    requires { IsTrue (is_choice choice.now) }
    ensures value { IfOk result (λ trigger. trigger ≡ spec.trigger_of number choice.now) }
    ensures valid { IfOk result (λ trigger. IsTrue (is_trigger_spec trigger)) }
{
    let key = trigger_key(alloc, number)?;
    let (key, job) = beside(key, job_key(alloc, number))?;
    let ((key, job), kind) = beside((key, job), make_kind(alloc, choice.schedule))?;
    Ok(TriggerSpec {
        key,
        job,
        priority: choice.priority as i32,
        calendar: None,
        timing: Timing {
            kind,
            misfire: 0,
            start: FIRST_MOMENT,
            end: None,
        },
    })
}
