//! Triggers: the order of keys, the due order and the triggers of a job.
ghost use Rattle.std.specs.Prelude.{◌<◌, IsTrue, IfOk, int_lt};
ghost use Rattle.qz_civil.specs.Timings.{is_name, is_timing};
ghost use Rattle.qz_types.specs.Rows.{is_trigger_spec};

use crate::cases::{Case, holds_of_new};
use crate::keys::{is_name, keys};
use qz_tables::{Any, Tables, Test};
use qz_types::{Key, Kind, NoMemory, Timing, TriggerRow, TriggerSpec, TriggerState};
use std::alloc::{AllocError, Global};
use std::test::*;

// Once, at 1970-01-01T00:00:00Z.
fn once() -> Timing
    ensures { IsTrue (is_timing result) }
{
    Timing {
        kind: Kind::Simple {
            interval: 0,
            count: 0,
        },
        misfire: 0,
        start: 0,
        end: None,
    }
}

fn spec(alloc: Global, name: &str, job: &str, priority: i32) -> Result<TriggerSpec, AllocError>
    requires name { IsTrue (is_name name.now) }
    requires job { IsTrue (is_name job.now) }
    ensures { IfOk result (λ spec. IsTrue (is_trigger_spec spec)) }
{
    let (key, job) = keys(alloc, name, job)?;
    Ok(TriggerSpec {
        key,
        job,
        priority,
        calendar: None,
        timing: once(),
    })
}

// Puts in the trigger, or in place of that of its key. Whether the key is new.
fn put(tables: &mut Tables, row: TriggerRow) -> bool
    requires { 0 < tables.old.spare.triggers }
{
    if tables.get_trigger(&row.spec.key).is_some() {
        drop(tables.change_trigger(row));
        return false;
    }
    tables.insert_trigger(row);
    true
}

/// A trigger's name, that of its job, its next time, its priority and its state.
pub(super) type Put = (&'static str, &'static str, i64, i32, TriggerState);

/// In due order they are e, b, d and a, and c doesn't wait.
pub(super) const PUTS: &[Put] = &[
    ("d", "j", 10, 5, TriggerState::Waiting),
    ("a", "k", 20, 5, TriggerState::Waiting),
    ("c", "j", 5, 5, TriggerState::Paused),
    ("e", "k", 10, 6, TriggerState::Waiting),
    ("b", "j", 10, 5, TriggerState::Waiting),
];

// Puts in the trigger, whose key is new.
fn puts(alloc: Global, tables: &mut Tables, given: &Put) -> Result<bool, NoMemory> {
    let &(name, job, next, priority, state) = given;
    if !is_name(name) || !is_name(job) {
        return Ok(false);
    }
    tables.reserve(1)?;
    let spec = spec(alloc, name, job, priority)?;
    let row = TriggerRow {
        spec,
        next: Some(next),
        prev: None,
        times: 0,
        state,
    };
    Ok(put(tables, row))
}

/// Puts in the triggers, whose keys are new.
pub(super) fn puts_all(
    alloc: Global,
    tables: &mut Tables,
    given: &[Put],
) -> Result<bool, NoMemory> {
    for given in given {
        if !puts(alloc, tables, given)? {
            return Ok(false);
        }
    }
    Ok(true)
}

fn is_named(row: Option<&TriggerRow>, name: &str) -> bool {
    match row {
        Some(row) => row.spec.key.name.as_str() == name,
        None => false,
    }
}

/// Whether these are the triggers, in the order of their keys.
pub(super) fn are_stored(tables: &Tables, names: &[&'static str]) -> bool {
    for (place, name) in names.iter().enumerate() {
        if !is_named(tables.nth_trigger(place), name) {
            return false;
        }
    }
    tables.len_triggers() == names.len()
}

/// Whether these are the triggers that wait, in due order.
pub(super) fn are_due(tables: &Tables, names: &[&'static str]) -> bool {
    let mut due = tables.due_first();
    for name in names {
        match due {
            Some(row) if is_named(Some(row), name) => {
                due = tables.due_next(Some(&row.spec.key), &Any)
            }
            _ => return false,
        }
    }
    due.is_none()
}

/// The triggers of a priority below this one.
#[derive(Drop)]
struct Below {
    priority: i32,
}

impl Test<TriggerRow> for Below {
    ghost test = { λ below row. int_lt row.spec.priority below.priority };

    fn passes(&self, row: &TriggerRow) -> bool {
        row.spec.priority < self.priority
    }
}

// Whether e, the first that is due, is passed over for its priority, and b and d are not.
fn are_due_below(tables: &Tables) -> bool {
    let below = Below { priority: 6 };
    let first = tables.due_next(None, &below);
    match first {
        Some(row) if is_named(first, "b") => {
            is_named(tables.due_next(Some(&row.spec.key), &below), "d")
        }
        _ => false,
    }
}

/// Triggers that wait come in due order.
struct Due;

impl Case for Due {
    fn holds(&self, alloc: Global, tables: &mut Tables) -> Result<bool, NoMemory> {
        let is_put = puts_all(alloc, tables, PUTS)?;
        if !is_put || !are_stored(tables, &["a", "b", "c", "d", "e"]) {
            return Ok(false);
        }
        Ok(are_due(tables, &["e", "b", "d", "a"]) && are_due_below(tables))
    }
}

#[test]
fn waiting_triggers_come_in_due_order(rt: HostRuntime) {
    assert!(rt; holds_of_new(rt.alloc(), &Due));
}

// Whether these are the triggers of the job, in the order of linking.
fn are_linked(tables: &Tables, job: &Key, names: &[&'static str]) -> bool {
    let mut rows = tables.triggers_of(job);
    for name in names {
        if !is_named(rows.next(), name) {
            return false;
        }
    }
    rows.next().is_none()
}

/// Where d belongs to k for a while.
const MOVES: &[Put] = &[
    ("d", "k", 10, 5, TriggerState::Waiting),
    ("d", "j", 10, 5, TriggerState::Waiting),
];

/// The triggers of a job come in the order in which they became its triggers.
struct Linking;

impl Case for Linking {
    fn holds(&self, alloc: Global, tables: &mut Tables) -> Result<bool, NoMemory> {
        let j = Key::new(alloc, "DEFAULT", "j")?;
        let k = Key::new(alloc, "DEFAULT", "k")?;
        let is_put = puts_all(alloc, tables, PUTS)?;
        if !is_put || !are_linked(tables, &j, &["d", "c", "b"]) {
            return Ok(false);
        }
        for moved in MOVES {
            if puts(alloc, tables, moved)? {
                return Ok(false);
            }
        }
        Ok(are_linked(tables, &j, &["c", "b", "d"]) && are_linked(tables, &k, &["a", "e"]))
    }
}

#[test]
fn triggers_come_in_the_order_of_linking(rt: HostRuntime) {
    assert!(rt; holds_of_new(rt.alloc(), &Linking));
}
