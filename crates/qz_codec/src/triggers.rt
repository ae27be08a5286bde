//! Triggers, both ways: what a client stores, and the row.
ghost use Rattle.std.specs.Prelude.{◌≡◌, ℕ, ℤ, IsTrue, IfOk, ◌≤◌, ◌++◌, OnOk, nat_le};
ghost use Rattle.std.specs.Int.{w64};
ghost use Rattle.qz_types.specs.Rows.{is_trigger_spec};
ghost use Rattle.qz_values.specs.Reading.{Gives};
ghost use Rattle.qz_values.specs.Fields.{checked, number_at};
ghost use Rattle.qz_codec.specs.Reading.{spec_at};
ghost use Rattle.qz_values.specs.Timings.{timing};
ghost use Rattle.qz_values.specs.declared.versions.Version.TheVariants.{Two};
ghost use Rattle.qz_codec.specs.Values.{IsSpec};
ghost use Rattle.qz_codec.specs.Layout.{key, job, spec};
ghost use Rattle.qz_types.specs.declared.limits.TheConstants.{TIMES_LIMIT};
ghost use Rattle.qz_codec.specs.Rows.{trigger_state_place, trigger, IsTrigger, trigger_state_at, trigger_at};

use crate::calendars::{calendar_of, put_calendar};
use crate::keys::{make_keys, names_of, put_key};
use crate::records::{Recorded, Row};
use qz_civil::beside;
use qz_types::{TIMES_LIMIT, TriggerRow, TriggerSpec, TriggerState};
use qz_values::{
    Fault, Version, i32_at, put_i32, put_time, put_timing, put_u8, put_u64, time_of, timing_of,
    u8_at, u64_at,
};
use std::alloc::{AllocError, Global};

#[tactic(auto, unfolding(crate::specs::Reading::spec_at))]
pub(crate) fn spec_of(
    alloc: Global,
    version: Version,
    bytes: &[u8],
) -> Result<(TriggerSpec, &[u8]), Fault>
    ensures exact { Gives (λ x. (x.0, x.1.now)) result (spec_at version bytes.now) }
    ensures valid { IfOk result (λ x. IsTrue (is_trigger_spec x.0)) }
{
    let (key, rest) = names_of(bytes)?;
    let (job, rest) = names_of(rest)?;
    let (priority, rest) = i32_at(rest)?;
    let (calendar, rest) = calendar_of(alloc, rest)?;
    let named = beside(calendar, make_keys(alloc, key, job))?;
    let ((calendar, (key, job)), (timing, rest)) = beside(named, timing_of(alloc, version, rest))?;
    let spec = TriggerSpec {
        key,
        job,
        priority,
        calendar,
        timing,
    };
    Ok((spec, rest))
}

#[tactic(auto, unfolding(crate::specs::Layout::spec), using(qz_values::proofs::Signs::signs))]
pub(crate) fn put_spec(out: &mut Vec<u8>, row: &TriggerSpec) -> Result<(), AllocError>
    requires { IsTrue (is_trigger_spec row.now) }
    ensures bytes { OnOk result (out.new.items ≡ out.old.items ++ spec Two row.now) }
    ensures valid { OnOk result (IsSpec Two row.now) }
{
    put_key(out, &row.key)?;
    put_key(out, &row.job)?;
    put_i32(out, row.priority)?;
    put_calendar(out, &row.calendar)?;
    put_timing(out, &row.timing)
}

/// How often a trigger fired.
fn times_of(bytes: &[u8]) -> Result<(u64, &[u8]), Fault>
    ensures exact { Gives (λ x. (x.0, x.1.now)) result (checked (λ n. nat_le n TIMES_LIMIT) (number_at w64) bytes.now) }
    ensures valid { IfOk result (λ x. x.0 ≤ TIMES_LIMIT) }
{
    match u64_at(bytes) {
        Ok((times, _)) if times > TIMES_LIMIT => Err(Fault::at(bytes)),
        read => read,
    }
}

#[tactic(auto, unfolding(crate::specs::Rows::trigger_state_at))]
fn trigger_state_of(bytes: &[u8]) -> Result<(TriggerState, &[u8]), Fault>
    ensures { Gives (λ x. (x.0, x.1.now)) result (trigger_state_at bytes.now) }
{
    let (place, rest) = u8_at(bytes)?;
    match place {
        0 => Ok((TriggerState::Waiting, rest)),
        1 => Ok((TriggerState::Acquired, rest)),
        2 => Ok((TriggerState::Complete, rest)),
        3 => Ok((TriggerState::Blocked, rest)),
        4 => Ok((TriggerState::Paused, rest)),
        5 => Ok((TriggerState::PausedBlocked, rest)),
        6 => Ok((TriggerState::Error, rest)),
        _ => Err(Fault::at(bytes)),
    }
}

#[tactic(auto, unfolding(crate::specs::Rows::trigger_at))]
fn trigger_of(alloc: Global, version: Version, bytes: &[u8]) -> Result<(TriggerRow, &[u8]), Fault>
    ensures { Gives (λ x. (x.0, x.1.now)) result (trigger_at version bytes.now) }
{
    let (spec, rest) = spec_of(alloc, version, bytes)?;
    let (spec, (next, rest)) = beside(spec, time_of(rest))?;
    let (spec, (prev, rest)) = beside(spec, time_of(rest))?;
    let (spec, (times, rest)) = beside(spec, times_of(rest))?;
    let (spec, (state, rest)) = beside(spec, trigger_state_of(rest))?;
    let row = TriggerRow {
        spec,
        next,
        prev,
        times,
        state,
    };
    Ok((row, rest))
}

/// The place of the state among all states.
fn place_of_state(state: TriggerState) -> u8
    ensures { result ≡ trigger_state_place state }
{
    match state {
        TriggerState::Waiting => 0,
        TriggerState::Acquired => 1,
        TriggerState::Complete => 2,
        TriggerState::Blocked => 3,
        TriggerState::Paused => 4,
        TriggerState::PausedBlocked => 5,
        TriggerState::Error => 6,
    }
}

#[tactic(auto, unfolding(crate::specs::Rows::trigger), using(qz_values::proofs::Signs::signs))]
fn put_trigger(out: &mut Vec<u8>, row: &TriggerRow) -> Result<(), AllocError>
    ensures bytes { OnOk result (out.new.items ≡ out.old.items ++ trigger Two row.now) }
    ensures valid { OnOk result (IsTrigger Two row.now) }
{
    put_spec(out, &row.spec)?;
    put_time(out, &row.next)?;
    put_time(out, &row.prev)?;
    put_u64(out, row.times)?;
    put_u8(out, place_of_state(row.state))
}

impl Recorded for TriggerRow {
    ghost can_put = { λ row. Unit {0} };

    ghost fields = { trigger };

    ghost has_record = { IsTrigger };

    ghost fields_at = { trigger_at };

    ghost most = { 1325 };

    fn put_fields(&self, out: &mut Vec<u8>) -> Result<(), AllocError> {
        put_trigger(out, self)
    }

    fn fields_of(
        alloc: Global,
        version: Version,
        bytes: &[u8],
    ) -> Result<(TriggerRow, &[u8]), Fault> {
        trigger_of(alloc, version, bytes)
    }

    fn is_format() {}
}

impl Row for TriggerRow {}
