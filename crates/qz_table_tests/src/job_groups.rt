//! Groups of jobs: the states of their jobs' triggers.
use crate::bulk::are_in;
use crate::cases::{Case, holds_of_new};
use crate::fired;
use crate::triggers::{PUTS, puts_all};
use qz_tables::{StateChange, Tables};
use qz_types::{NoMemory, Text, TriggerState};
use std::alloc::Global;
use std::test::*;

const PAUSED: &[TriggerState] = &[TriggerState::Paused; 5];

const WAITING: &[TriggerState] = &[TriggerState::Waiting; 5];

// Whether the triggers stay paused while one of the two groups is.
fn stay_paused(tables: &mut Tables, name: &Text) -> bool {
    tables.change_job_group_states(name, StateChange::Pause);
    tables.resume_group_states(name);
    tables.resume_job_group_states(name);
    are_in(tables, PAUSED)
}

// Whether they wait again when neither is.
fn wait_again(tables: &mut Tables, name: &Text) -> bool {
    drop(tables.remove_group(name));
    tables.resume_group_states(name);
    if !are_in(tables, PAUSED) {
        return false;
    }
    drop(tables.remove_job_group(name));
    tables.resume_job_group_states(name);
    are_in(tables, WAITING) && tables.get_job_group(name).is_none()
}

fn pause(tables: &mut Tables, group: Text, job_group: Text) -> Result<(), NoMemory> {
    tables.reserve(1)?;
    if tables.get_group(&group).is_none() {
        tables.insert_group(group);
    }
    if tables.get_job_group(&job_group).is_none() {
        tables.insert_job_group(job_group);
    }
    Ok(())
}

fn pause_named(alloc: Global, tables: &mut Tables) -> Result<(), NoMemory> {
    let group = Text::from_str(alloc, "DEFAULT")?;
    let job_group = Text::from_str(alloc, "DEFAULT")?;
    pause(tables, group, job_group)
}

/// Triggers are paused and resumed with the group of their jobs.
struct Triggers;

impl Case for Triggers {
    fn holds(&self, alloc: Global, tables: &mut Tables) -> Result<bool, NoMemory> {
        let is_put = puts_all(alloc, tables, PUTS)?;
        pause_named(alloc, tables)?;
        let name = Text::from_str(alloc, "DEFAULT")?;
        Ok(is_put && stay_paused(tables, &name) && wait_again(tables, &name))
    }
}

#[test]
fn triggers_pause_with_their_jobs_group(rt: HostRuntime) {
    assert!(rt; holds_of_new(rt.alloc(), &Triggers));
}

/// Acquired rows of a group's jobs are taken out.
struct FiredRows;

impl Case for FiredRows {
    fn holds(&self, alloc: Global, tables: &mut Tables) -> Result<bool, NoMemory> {
        if !fired::puts_all(alloc, tables)? {
            return Ok(false);
        }
        let other = Text::from_str(alloc, "OTHER")?;
        let name = Text::from_str(alloc, "DEFAULT")?;
        Ok(removes(tables, &other, &name))
    }
}

fn removes(tables: &mut Tables, other: &Text, name: &Text) -> bool {
    let before = tables.len_fired();
    tables.remove_acquired_of_job_group(other);
    if tables.len_fired() != before {
        return false;
    }
    tables.remove_acquired_of_job_group(name);
    tables.len_fired() == 0
}

#[test]
fn fired_rows_go_with_their_jobs_group(rt: HostRuntime) {
    assert!(rt; holds_of_new(rt.alloc(), &FiredRows));
}
