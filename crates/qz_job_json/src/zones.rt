//! The zones of lines: their tables, and their rules.
ghost use Rattle.std.specs.Prelude.{◌≡◌, ◌⊎◌, true, None, Some, IfOk, IfErr};
ghost use Rattle.serde_json.specs.View.{view, items_view};
ghost use Rattle.qz_job_json.specs.Faults.{ReadsAs, or_shape};
ghost use Rattle.qz_job_json.specs.Tables.{follows, all_follow};
ghost use Rattle.qz_job_json.specs.Members.{kept};
ghost use Rattle.qz_job_json.specs.Zones as spec;
ghost use Rattle.qz_zone_rule.specs.Tables.{rule_table};

use crate::faults::{LineError, LineFault};
use crate::members::integer_in;
use qz_civil::{List, STRETCH_LIMIT, Stretch, Zone, is_offset, may_begin};
use qz_zone_rule::{RuleFault, expand};
use serde_json::Value;
use std::alloc::Global;

/// The stretch that a list of a timestamp and an offset is.
#[tactic(auto, unfolding(crate::specs::Zones::stretch_of))]
fn stretch_of(value: &Value) -> Option<Stretch>
    ensures { result ≡ spec.stretch_of (view value.now) }
{
    if value.get(2).is_some() {
        return None;
    }
    let from = value.get(0)?.as_i64()?;
    let offset = integer_in(value.get(1)?, i64::from(i32::MIN), i64::from(i32::MAX))?;
    Some(Stretch {
        from,
        offset: offset as i32,
    })
}

/// Whether the values are the stretches of a zone.
fn is_table(items: &[Value]) -> bool
    ensures { result ≡ spec.is_table (items_view items.now) }
{
    let count = items.len() as u64;
    if count == 0 {
        return false;
    }
    if count > STRETCH_LIMIT {
        return false;
    }
    all_follow(items)
}

/// Whether each value is a stretch, and each may begin where it does.
fn all_follow(items: &[Value]) -> bool
    ensures { result ≡ all_follow None (items_view items.now) }
{
    let mut before = None;
    for item in items {
        match follows(before, item) {
            Some(from) => before = Some(from),
            None => return false,
        }
    }
    true
}

/// Where the stretch that the value is begins, in ms, if it may follow one that begins at `before`.
fn follows(before: Option<i64>, value: &Value) -> Option<i64>
    ensures { result ≡ follows before (view value.now) }
{
    let stretch = stretch_of(value)?;
    if may_begin(before, stretch.from) && is_offset(stretch.offset) {
        Some(stretch.from)
    } else {
        None
    }
}

fn stretches_of(alloc: Global, items: &[Value]) -> Result<List<Stretch>, LineError>
    ensures ok { IfOk result (λ stretches. spec.stretches_of (items_view items.now) ≡ Some stretches) }
    ensures err { IfErr result (λ error. (error ≡ LineError.NoMemory) ⊎ ((error ≡ LineError.Bad LineFault.Shape) × (spec.stretches_of (items_view items.now) ≡ None))) }
{
    let mut stretches = List::new(alloc);
    for item in items {
        let stretch = stretch_of(item).ok_or(LineFault::Shape)?;
        stretches.push(stretch).map_err(|_| LineError::NoMemory)?;
    }
    Ok(stretches)
}

/// The zone whose table the value is. A table that is bad is refused before memory is wanted.
fn zone_of(alloc: Global, value: &Value) -> Result<Zone, LineError>
    ensures value { ReadsAs result (or_shape (spec.zone_of (view value.now))) }
    ensures valid { IfOk result (λ zone. spec.is_zone zone ≡ true) }
{
    let items = value.as_array().ok_or(LineFault::Shape)?;
    if !is_table(items.as_slice()) {
        return Err(LineError::Bad(LineFault::Shape));
    }
    match Zone::table(stretches_of(alloc, items.as_slice())?) {
        Ok(zone) => Ok(zone),
        Err(_) => unreachable!(),
    }
}

/// The table of a rule text. A text of no zone is refused before memory is wanted.
#[tactic(auto, using(crate::proofs::RuleLaws::rule_tables))]
fn table_of_rule(alloc: Global, rule: &str) -> Result<List<Stretch>, LineError>
    ensures { ReadsAs result (or_shape (kept spec.is_zone (rule_table rule.now))) }
{
    match expand(alloc, rule) {
        Ok(stretches) => Ok(stretches),
        Err(RuleFault::BadRule) => Err(LineError::Bad(LineFault::Shape)),
        Err(RuleFault::Bad { .. }) => Err(LineError::Bad(LineFault::Shape)),
        Err(RuleFault::NoMemory) => Err(LineError::NoMemory),
    }
}

/// The zone of a rule text.
#[tactic(auto, using(crate::proofs::RuleLaws::kept_is_zone))]
fn rule_zone_of(alloc: Global, value: &Value) -> Result<Zone, LineError>
    ensures value { ReadsAs result (or_shape (spec.rule_zone_of (view value.now))) }
    ensures valid { IfOk result (λ zone. spec.is_zone zone ≡ true) }
{
    let rule = value.as_str().ok_or(LineFault::Shape)?;
    match Zone::table(table_of_rule(alloc, rule)?) {
        Ok(zone) => Ok(zone),
        Err(_) => unreachable!(),
    }
}

/// The zone that a line gives: by its table or by its rule, and by one of them alone.
pub(crate) fn zone_given(alloc: Global, value: &Value) -> Result<Zone, LineError>
    ensures value { ReadsAs result (or_shape (spec.zone_given (view value.now))) }
    ensures valid { IfOk result (λ zone. spec.is_zone zone ≡ true) }
{
    match value.get("stretches") {
        Some(table) => match value.get("rule") {
            Some(_) => Err(LineError::Bad(LineFault::Shape)),
            None => zone_of(alloc, table),
        },
        None => match value.get("rule") {
            Some(rule) => rule_zone_of(alloc, rule),
            None => Err(LineError::Bad(LineFault::Shape)),
        },
    }
}
