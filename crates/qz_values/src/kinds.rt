//! Kinds of triggers, both ways.
ghost use Rattle.std.specs.Prelude.{◌≡◌, ℕ, ℤ, ◌<◌, ◌&&◌, IsTrue, IfOk, ◌++◌, ◌∷◌, [], OnOk};
ghost use Rattle.std.specs.Int.{w32, w64};
ghost use Rattle.qz_civil.specs.Timings.{is_day_set, is_every, is_kind, is_step};
ghost use Rattle.qz_values.specs.Reading.{Gives};
ghost use Rattle.qz_values.specs.Fields.{checked, byte_at, number_at, integer_at, number, integer, flag, text};
ghost use Rattle.qz_values.specs.Timings.{unit_at, simple_at, cron_at, interval_flags_at, interval_at, is_even, is_second_from, daily_at, kind_at, IsKind, unit_place, kind};
ghost use Rattle.qz_values.specs.CronFields.{cron_fields};
ghost use Rattle.qz_values.specs.declared.versions.Version.TheVariants.{Two};

use crate::cron_fields::{cron_fields_of, put_cron_fields};
use crate::faults::Fault;
use crate::numbers::{bool_at, i64_at, put_bool, put_i64, put_u8, put_u32, u8_at, u32_at};
use crate::texts::{name_of, owned_name_of, put_name};
use crate::times::{is_between, span_of};
use crate::versions::Version;
use qz_civil::{COUNT_LIMIT, CronFields, DAY_SECONDS, EVERY_LIMIT, Kind, LONGEST, Text, Unit};
use std::alloc::{AllocError, Global};

/// Once, or with an interval of at least 1 ms and a count from -1 to `COUNT_LIMIT`.
fn is_simple(interval: i64, count: i64) -> bool
    ensures { result ≡ is_kind (Kind.Simple interval count) }
{
    (interval == 0 && count == 0)
        || (is_between(1, LONGEST, interval) && is_between(-1, COUNT_LIMIT, count))
}

/// The count of a trigger with this interval.
fn count_of(interval: i64, bytes: &[u8]) -> Result<(i64, &[u8]), Fault>
    ensures exact { Gives (λ x. (x.0, x.1.now)) result (checked (λ n. is_kind (Kind.Simple interval n)) (integer_at w64) bytes.now) }
    ensures valid { IfOk result (λ x. IsTrue (is_kind (Kind.Simple interval x.0))) }
{
    match i64_at(bytes) {
        Ok((count, _)) if !is_simple(interval, count) => Err(Fault::at(bytes)),
        read => read,
    }
}

#[tactic(auto, unfolding(crate::specs::Timings::simple_at))]
fn simple_of(bytes: &[u8]) -> Result<(Kind, &[u8]), Fault>
    ensures exact { Gives (λ x. (x.0, x.1.now)) result (simple_at bytes.now) }
    ensures valid { IfOk result (λ x. IsTrue (is_kind x.0)) }
{
    let (interval, rest) = span_of(bytes)?;
    let (count, rest) = count_of(interval, rest)?;
    Ok((Kind::Simple { interval, count }, rest))
}

#[tactic(auto, unfolding(crate::specs::Timings::cron_at))]
fn cron_of(alloc: Global, version: Version, bytes: &[u8]) -> Result<(Kind, &[u8]), Fault>
    ensures exact { Gives (λ x. (x.0, x.1.now)) result (cron_at version bytes.now) }
    ensures valid { IfOk result (λ x. IsTrue (is_kind x.0)) }
{
    let (fields, rest) = cron_fields_of(version, bytes)?;
    let (zone, rest) = owned_name_of(alloc, rest)?;
    Ok((Kind::Cron { fields, zone }, rest))
}

#[tactic(auto, unfolding(crate::specs::Timings::unit_at))]
fn unit_of(bytes: &[u8]) -> Result<(Unit, &[u8]), Fault>
    ensures { Gives (λ x. (x.0, x.1.now)) result (unit_at bytes.now) }
{
    let (place, rest) = u8_at(bytes)?;
    match place {
        0 => Ok((Unit::Second, rest)),
        1 => Ok((Unit::Minute, rest)),
        2 => Ok((Unit::Hour, rest)),
        3 => Ok((Unit::Day, rest)),
        4 => Ok((Unit::Week, rest)),
        5 => Ok((Unit::Month, rest)),
        6 => Ok((Unit::Year, rest)),
        _ => Err(Fault::at(bytes)),
    }
}

/// How many units.
fn every_of(bytes: &[u8]) -> Result<(u32, &[u8]), Fault>
    ensures exact { Gives (λ x. (x.0, x.1.now)) result (checked is_every (number_at w32) bytes.now) }
    ensures valid { IfOk result (λ x. IsTrue (is_every x.0)) }
{
    match u32_at(bytes) {
        Ok((every, _)) if every < 1 || every > EVERY_LIMIT => Err(Fault::at(bytes)),
        read => read,
    }
}

/// Whether an interval keeps the hour of the day, and whether it skips a day that doesn't have it. A record of version
/// one doesn't say so: there it does both.
#[tactic(auto, unfolding(crate::specs::Timings::interval_flags_at))]
fn interval_flags_of(version: Version, bytes: &[u8]) -> Result<((bool, bool), &[u8]), Fault>
    ensures { Gives (λ x. (x.0, x.1.now)) result (interval_flags_at version bytes.now) }
{
    match version {
        Version::One => Ok(((true, true), bytes)),
        Version::Two => {
            let (preserve, rest) = bool_at(bytes)?;
            let (skip, rest) = bool_at(rest)?;
            Ok(((preserve, skip), rest))
        }
    }
}

#[tactic(auto, unfolding(crate::specs::Timings::interval_at))]
fn interval_of(alloc: Global, version: Version, bytes: &[u8]) -> Result<(Kind, &[u8]), Fault>
    ensures exact { Gives (λ x. (x.0, x.1.now)) result (interval_at version bytes.now) }
    ensures valid { IfOk result (λ x. IsTrue (is_kind x.0)) }
{
    let (unit, rest) = unit_of(bytes)?;
    let (every, rest) = every_of(rest)?;
    let (zone, rest) = name_of(rest)?;
    let ((preserve, skip), rest) = interval_flags_of(version, rest)?;
    let kind = Kind::Interval {
        unit,
        every,
        zone: Text::from_str(alloc, zone)?,
        preserve,
        skip,
    };
    Ok((kind, rest))
}

/// A second, a minute or an hour.
fn even_unit_of(bytes: &[u8]) -> Result<(Unit, &[u8]), Fault>
    ensures { Gives (λ x. (x.0, x.1.now)) result (checked is_even unit_at bytes.now) }
{
    match unit_of(bytes) {
        Ok((unit, _)) if unit.seconds().is_none() => Err(Fault::at(bytes)),
        read => read,
    }
}

/// How many of these units, which are a second to a day.
fn steps_of(unit: Unit, bytes: &[u8]) -> Result<(u32, &[u8]), Fault>
    ensures exact { Gives (λ x. (x.0, x.1.now)) result (checked (is_step unit) (number_at w32) bytes.now) }
    ensures valid { IfOk result (λ x. IsTrue (is_step unit x.0)) }
{
    let (every, rest) = u32_at(bytes)?;
    if !unit.is_step(every) {
        return Err(Fault::at(bytes));
    }
    Ok((every, rest))
}

/// A second of the day that isn't before `from`.
fn second_of_day(from: u32, bytes: &[u8]) -> Result<(u32, &[u8]), Fault>
    ensures exact { Gives (λ x. (x.0, x.1.now)) result (checked (is_second_from from) (number_at w32) bytes.now) }
    ensures valid { IfOk result (λ x. IsTrue (is_second_from from x.0)) }
{
    match u32_at(bytes) {
        Ok((second, _)) if second < from || u64::from(second) >= DAY_SECONDS => Err(Fault::at(
            bytes,
        )),
        read => read,
    }
}

/// Some of the seven days.
fn days_of(bytes: &[u8]) -> Result<(u8, &[u8]), Fault>
    ensures exact { Gives (λ x. (x.0, x.1.now)) result (checked is_day_set byte_at bytes.now) }
    ensures valid { IfOk result (λ x. IsTrue (is_day_set x.0)) }
{
    match u8_at(bytes) {
        Ok((days, _)) if days < 1 || days > 127 => Err(Fault::at(bytes)),
        read => read,
    }
}

#[tactic(auto, unfolding(crate::specs::Timings::daily_at))]
fn daily_of(alloc: Global, bytes: &[u8]) -> Result<(Kind, &[u8]), Fault>
    ensures exact { Gives (λ x. (x.0, x.1.now)) result (daily_at bytes.now) }
    ensures valid { IfOk result (λ x. IsTrue (is_kind x.0)) }
{
    let (unit, rest) = even_unit_of(bytes)?;
    let (every, rest) = steps_of(unit, rest)?;
    let (from, rest) = second_of_day(0, rest)?;
    let (to, rest) = second_of_day(from, rest)?;
    let (days, rest) = days_of(rest)?;
    let (zone, rest) = owned_name_of(alloc, rest)?;
    let kind = Kind::Daily {
        unit,
        every,
        from,
        to,
        days,
        zone,
    };
    Ok((kind, rest))
}

#[tactic(auto, unfolding(crate::specs::Timings::kind_at))]
pub(crate) fn kind_of(alloc: Global, version: Version, bytes: &[u8]) -> Result<(Kind, &[u8]), Fault>
    ensures exact { Gives (λ x. (x.0, x.1.now)) result (kind_at version bytes.now) }
    ensures valid { IfOk result (λ x. IsTrue (is_kind x.0)) }
{
    let (place, rest) = u8_at(bytes)?;
    match place {
        0 => simple_of(rest),
        1 => cron_of(alloc, version, rest),
        2 => interval_of(alloc, version, rest),
        3 => daily_of(alloc, rest),
        _ => Err(Fault::at(bytes)),
    }
}

/// The place of the unit among all units.
fn place_of_unit(unit: Unit) -> u8
    ensures { result ≡ unit_place unit }
{
    match unit {
        Unit::Second => 0,
        Unit::Minute => 1,
        Unit::Hour => 2,
        Unit::Day => 3,
        Unit::Week => 4,
        Unit::Month => 5,
        Unit::Year => 6,
    }
}

#[tactic(auto, using(crate::proofs::Signs::signs))]
fn put_simple(out: &mut Vec<u8>, interval: i64, count: i64) -> Result<(), AllocError>
    requires { IsTrue (is_kind (Kind.Simple interval count)) }
    ensures bytes { OnOk result (out.new.items ≡ out.old.items ++ 0 ∷ (integer w64 interval ++ integer w64 count)) }
    ensures valid { OnOk result (IsKind Two (Kind.Simple interval count)) }
{
    put_u8(out, 0)?;
    put_i64(out, interval)?;
    put_i64(out, count)
}

#[tactic(auto, using(crate::proofs::Signs::signs))]
fn put_cron(out: &mut Vec<u8>, fields: &CronFields, zone: &Text) -> Result<(), AllocError>
    requires { IsTrue (is_kind (Kind.Cron fields.now zone.now)) }
    ensures bytes { OnOk result (out.new.items ≡ out.old.items ++ 1 ∷ (cron_fields fields.now ++ text zone.now)) }
    ensures valid { OnOk result (IsKind Two (Kind.Cron fields.now zone.now)) }
{
    put_u8(out, 1)?;
    put_cron_fields(out, fields)?;
    put_name(out, zone)
}

/// How many of which units.
#[tactic(auto, using(crate::proofs::Signs::signs))]
fn put_step(out: &mut Vec<u8>, unit: Unit, every: u32) -> Result<(), AllocError>
    ensures { OnOk result (out.new.items ≡ out.old.items ++ unit_place unit ∷ number w32 every) }
{
    put_u8(out, place_of_unit(unit))?;
    put_u32(out, every)
}

#[tactic(auto, using(crate::proofs::Signs::signs))]
fn put_interval(
    out: &mut Vec<u8>,
    unit: Unit,
    every: u32,
    zone: &Text,
    preserve: bool,
    skip: bool,
) -> Result<(), AllocError>
    requires { IsTrue (is_kind (Kind.Interval unit every zone.now preserve skip)) }
    ensures bytes { OnOk result (out.new.items ≡ out.old.items ++ 2 ∷ unit_place unit ∷ (number w32 every ++ (text zone.now ++ (flag preserve ++ flag skip)))) }
    ensures valid { OnOk result (IsKind Two (Kind.Interval unit every zone.now preserve skip)) }
{
    put_u8(out, 2)?;
    put_step(out, unit, every)?;
    put_name(out, zone)?;
    put_bool(out, preserve)?;
    put_bool(out, skip)
}

/// The seconds of the day, and the days.
#[tactic(auto, using(crate::proofs::Signs::signs))]
fn put_times(out: &mut Vec<u8>, from: u32, to: u32, days: u8) -> Result<(), AllocError>
    ensures { OnOk result (out.new.items ≡ out.old.items ++ (number w32 from ++ (number w32 to ++ days ∷ []))) }
{
    put_u32(out, from)?;
    put_u32(out, to)?;
    put_u8(out, days)
}

#[tactic(auto, unfolding(crate::specs::Timings::kind), using(crate::proofs::Signs::signs))]
pub(crate) fn put_kind(out: &mut Vec<u8>, k: &Kind) -> Result<(), AllocError>
    requires { IsTrue (is_kind k.now) }
    ensures bytes { OnOk result (out.new.items ≡ out.old.items ++ kind Two k.now) }
    ensures valid { OnOk result (IsKind Two k.now) }
{
    match k {
        Kind::Simple { interval, count } => put_simple(out, *interval, *count),
        Kind::Cron { fields, zone } => put_cron(out, fields, zone),
        Kind::Interval {
            unit,
            every,
            zone,
            preserve,
            skip,
        } => put_interval(out, *unit, *every, zone, *preserve, *skip),
        Kind::Daily {
            unit,
            every,
            from,
            to,
            days,
            zone,
        } => {
            put_u8(out, 3)?;
            put_step(out, *unit, *every)?;
            put_times(out, *from, *to, *days)?;
            put_name(out, zone)
        }
    }
}
