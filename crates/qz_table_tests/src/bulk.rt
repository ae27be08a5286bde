//! Changes of the rows that pass a test.
use crate::cases::{Case, holds_of_new};
use crate::fired;
use crate::triggers::{PUTS, are_stored, puts_all};
use qz_tables::{Begin, StateChange, Tables};
use qz_types::{Key, NoMemory, Text, TriggerState};
use std::alloc::Global;
use std::test::*;

/// Whether these are the states of the triggers, in the order of their keys.
pub(super) fn are_in(tables: &Tables, states: &[TriggerState]) -> bool {
    for (place, state) in states.iter().enumerate() {
        match tables.nth_trigger(place) {
            Some(row) if row.state == *state => {}
            _ => return false,
        }
    }
    tables.len_triggers() == states.len()
}

/// The states of a to e when a is paused, and an execution of j excludes others.
const BLOCKED: &[TriggerState] = &[
    TriggerState::Paused,
    TriggerState::Blocked,
    TriggerState::PausedBlocked,
    TriggerState::Blocked,
    TriggerState::Waiting,
];

/// When all are resumed after that.
const RESUMED: &[TriggerState] = &[
    TriggerState::Waiting,
    TriggerState::Blocked,
    TriggerState::Blocked,
    TriggerState::Blocked,
    TriggerState::Waiting,
];

/// When that execution has ended, and a is in error.
const UNBLOCKED: &[TriggerState] = &[
    TriggerState::Error,
    TriggerState::Waiting,
    TriggerState::Waiting,
    TriggerState::Waiting,
    TriggerState::Waiting,
];

fn changes_states(tables: &mut Tables, a: &Key, j: &Key) -> bool {
    tables.change_state(a, StateChange::Pause);
    tables.change_job_states(j, StateChange::Block);
    if !are_in(tables, BLOCKED) {
        return false;
    }
    tables.change_group_states(&a.group, StateChange::Resume);
    if !are_in(tables, RESUMED) {
        return false;
    }
    tables.change_job_states(j, StateChange::Unblock);
    tables.change_state(a, StateChange::Set(TriggerState::Error));
    are_in(tables, UNBLOCKED)
}

fn removes_triggers(tables: &mut Tables, j: &Key) -> bool {
    tables.remove_job_triggers(j) == 3
        && are_stored(tables, &["a", "e"])
        && tables.remove_job_triggers(j) == 0
}

/// The states of triggers change, and a job's triggers are taken out.
struct Triggers;

impl Case for Triggers {
    fn holds(&self, alloc: Global, tables: &mut Tables) -> Result<bool, NoMemory> {
        let is_put = puts_all(alloc, tables, PUTS)?;
        let a = Key::new(alloc, "DEFAULT", "a")?;
        let j = Key::new(alloc, "DEFAULT", "j")?;
        Ok(is_put && changes_states(tables, &a, &j) && removes_triggers(tables, &j))
    }
}

#[test]
fn triggers_change_together(rt: HostRuntime) {
    assert!(rt; holds_of_new(rt.alloc(), &Triggers));
}

fn begins(tables: &mut Tables, entry: u64) {
    tables.begin_execution(
        entry,
        Begin {
            moment: 7,
            no_concurrent: false,
            requests_recovery: false,
        },
    );
}

// Whether the acquired rows of the trigger go, then those of the job, and the execution stays.
fn removes_acquired(tables: &mut Tables, v: &Key, j: &Key) -> bool {
    tables.remove_acquired(v);
    if !fired::holds_rows(tables, &[(5, "t"), (9, "w")]) {
        return false;
    }
    begins(tables, 5);
    tables.remove_acquired_of_job(j);
    fired::holds_rows(tables, &[(5, "t")])
}

// Whether the member's rows go, and no other's.
fn removes_rows(tables: &mut Tables, a: &Text, b: &Text) -> bool {
    tables.remove_rows_of(b, 1);
    tables.remove_rows_of(a, 2);
    if !fired::holds_rows(tables, &[(5, "t")]) {
        return false;
    }
    tables.remove_rows_of(a, 1);
    tables.len_fired() == 0
}

fn removes_named(alloc: Global, tables: &mut Tables) -> Result<bool, NoMemory> {
    let v = Key::new(alloc, "DEFAULT", "v")?;
    let j = Key::new(alloc, "DEFAULT", "j")?;
    let a = Text::from_str(alloc, "A")?;
    let b = Text::from_str(alloc, "B")?;
    Ok(removes_acquired(tables, &v, &j) && removes_rows(tables, &a, &b))
}

// Whether the acquired rows of the group go, and the execution stays.
fn removes_group(alloc: Global, tables: &mut Tables) -> Result<bool, NoMemory> {
    let group = Text::from_str(alloc, "DEFAULT")?;
    begins(tables, 7);
    tables.remove_acquired_of_group(&group);
    Ok(fired::holds_rows(tables, &[(7, "v")]))
}

/// Fired rows are taken out.
struct FiredRows;

impl Case for FiredRows {
    fn holds(&self, alloc: Global, tables: &mut Tables) -> Result<bool, NoMemory> {
        if !fired::puts_all(alloc, tables)? || !removes_named(alloc, tables)? {
            return Ok(false);
        }
        Ok(fired::puts_all(alloc, tables)? && removes_group(alloc, tables)?)
    }
}

#[test]
fn fired_rows_go_together(rt: HostRuntime) {
    assert!(rt; holds_of_new(rt.alloc(), &FiredRows));
}
