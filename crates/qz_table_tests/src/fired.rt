//! Fired rows, whose ids are numbers: each call on a kind of rows, and the execution that begins.
ghost use Rattle.std.specs.Prelude.{◌<◌, IsTrue};
ghost use Rattle.qz_civil.specs.Timings.{is_name};

use crate::cases::{Case, holds_of_new};
use crate::keys::{is_name, keys};
use qz_civil::beside;
use qz_tables::{Begin, Tables};
use qz_types::{FiredRow, FiredState, Key, NoMemory, Text};
use std::alloc::{AllocError, Global};
use std::test::*;

// The row of an acquired trigger.
fn acquired(alloc: Global, entry: u64, trigger: &str) -> Result<FiredRow, AllocError>
    requires { IsTrue (is_name trigger.now) }
{
    let keys = keys(alloc, trigger, "j")?;
    let ((trigger, job), node) = beside(keys, Text::from_str(alloc, "A"))?;
    Ok(FiredRow {
        entry,
        node,
        epoch: 1,
        trigger,
        job,
        priority: 5,
        state: FiredState::Acquired,
        scheduled: 0,
        fired: None,
        no_concurrent: false,
        requests_recovery: false,
    })
}

// Puts in the row, or in place of that of its entry number. Whether the number is new.
fn put(tables: &mut Tables, row: FiredRow) -> bool
    requires { 0 < tables.old.spare.fired }
{
    if tables.get_fired(row.entry).is_some() {
        drop(tables.change_fired(row));
        return false;
    }
    tables.insert_fired(row);
    true
}

/// An entry number, the trigger's name, and whether the number is new.
type Put = (u64, &'static str, bool);

const PUTS: &[Put] = &[
    (5, "t", true),
    (9, "u", true),
    (2, "v", true),
    (9, "w", false),
    (7, "v", true),
];

fn puts(alloc: Global, tables: &mut Tables, given: &Put) -> Result<bool, NoMemory> {
    let &(entry, trigger, is_new) = given;
    if !is_name(trigger) {
        return Ok(false);
    }
    tables.reserve(1)?;
    let row = acquired(alloc, entry, trigger)?;
    Ok(put(tables, row) == is_new)
}

/// Puts in the rows of new tables, which are in `ALL` then.
pub(super) fn puts_all(alloc: Global, tables: &mut Tables) -> Result<bool, NoMemory> {
    for given in PUTS {
        if !puts(alloc, tables, given)? {
            return Ok(false);
        }
    }
    Ok(true)
}

fn is_of(row: Option<&FiredRow>, entry: u64, trigger: &str) -> bool {
    match row {
        Some(row) => row.entry == entry && row.trigger.name.as_str() == trigger,
        None => false,
    }
}

/// Whether these are the rows, in the order of the entry numbers.
pub(super) fn holds_rows(tables: &Tables, rows: &[(u64, &'static str)]) -> bool {
    for (place, &(entry, trigger)) in rows.iter().enumerate() {
        if !is_of(tables.nth_fired(place), entry, trigger)
            || !is_of(tables.get_fired(entry), entry, trigger)
        {
            return false;
        }
    }
    tables.len_fired() == rows.len() && tables.nth_fired(rows.len()).is_none()
}

fn holds_sorted(
    alloc: Global,
    tables: &Tables,
    rows: &[(u64, &'static str)],
) -> Result<bool, NoMemory> {
    let sorted = tables.sorted_fired(alloc)?;
    for (place, &(entry, trigger)) in rows.iter().enumerate() {
        if !is_of(sorted.get(place).copied(), entry, trigger) {
            return Ok(false);
        }
    }
    Ok(sorted.len() == rows.len())
}

/// The rows when all are put in, and when entry 5 is taken out.
const ALL: &[(u64, &str)] = &[(2, "v"), (5, "t"), (7, "v"), (9, "w")];

const WITHOUT_5: &[(u64, &str)] = &[(2, "v"), (7, "v"), (9, "w")];

// Whether entry 5 can be taken out once.
fn takes_out_5(tables: &mut Tables) -> bool {
    let removed = tables.remove_fired(5);
    let is_right = is_of(removed.as_ref(), 5, "t");
    is_right && tables.remove_fired(5).is_none() && tables.get_fired(5).is_none()
}

/// Rows are put in, changed and taken out.
struct Rows;

impl Case for Rows {
    fn holds(&self, alloc: Global, tables: &mut Tables) -> Result<bool, NoMemory> {
        if !puts_all(alloc, tables)? || !holds_rows(tables, ALL) {
            return Ok(false);
        }
        if !takes_out_5(tables) || !holds_rows(tables, WITHOUT_5) {
            return Ok(false);
        }
        holds_sorted(alloc, tables, WITHOUT_5)
    }
}

#[test]
fn rows_are_put_in_changed_and_taken_out(rt: HostRuntime) {
    assert!(rt; holds_of_new(rt.alloc(), &Rows));
}

/// How the executions begin.
const BEGIN: Begin = Begin {
    moment: 7,
    no_concurrent: true,
    requests_recovery: false,
};

fn has_begun(row: Option<&FiredRow>) -> bool {
    match row {
        Some(row) => {
            row.state == FiredState::Executing
                && row.fired == Some(BEGIN.moment)
                && row.no_concurrent
                && !row.requests_recovery
        }
        None => false,
    }
}

// Of the two acquired rows of the trigger v, that of the lesser entry number is found, until its execution begins.
fn begins_both(tables: &mut Tables, trigger: &Key) -> bool {
    for entry in [2, 7] {
        if !is_of(tables.acquired_row(trigger), entry, "v") {
            return false;
        }
        tables.begin_execution(entry, BEGIN);
        if !has_begun(tables.get_fired(entry)) {
            return false;
        }
    }
    tables.acquired_row(trigger).is_none()
}

/// Executions begin.
struct Executions;

impl Case for Executions {
    fn holds(&self, alloc: Global, tables: &mut Tables) -> Result<bool, NoMemory> {
        let is_put = puts_all(alloc, tables)?;
        let trigger = Key::new(alloc, "DEFAULT", "v")?;
        Ok(is_put && begins_both(tables, &trigger))
    }
}

#[test]
fn an_acquired_row_becomes_an_execution(rt: HostRuntime) {
    assert!(rt; holds_of_new(rt.alloc(), &Executions));
}
