//! Edits of tables, as the cases name them.
ghost use Rattle.std.specs.Prelude.{◌<◌};

use crate::rows::{GivenFired, GivenTrigger, calendar, fired, job, key, member, trigger, zone};
use qz_tables::Tables;
use qz_types::{CalendarRow, FiredRow, JobRow, MemberRow, NoMemory, Text, TriggerRow, ZoneRow};
use std::alloc::Global;

/// A row that is put in, or in place of that of its id, a row that is taken out, or a number that is set.
#[derive(Clone, Copy)]
pub(super) enum Edit {
    /// Its name, and whether two executions exclude each other.
    Job(&'static str, bool),
    Trigger(GivenTrigger),
    /// Its name, that below it, and its zone.
    Calendar(&'static str, Option<&'static str>, &'static str),
    Zone(&'static str),
    Member(&'static str, u64),
    Fired(GivenFired),
    /// A paused group of triggers.
    Group(&'static str),
    /// A paused group of jobs.
    JobGroup(&'static str),
    NoJob(&'static str),
    NoTrigger(&'static str),
    NoCalendar(&'static str),
    NoZone(&'static str),
    NoMember(&'static str),
    NoFired(u64),
    NextEntry(u64),
    NextEpoch(u64),
    Threshold(i64),
    LastMoment(i64),
    Horizon(i64),
}

fn put_job(tables: &mut Tables, row: JobRow)
    requires { 0 < tables.old.spare.jobs }
{
    if tables.get_job(&row.key).is_some() {
        drop(tables.change_job(row));
    } else {
        tables.insert_job(row);
    }
}

fn put_trigger(tables: &mut Tables, row: TriggerRow)
    requires { 0 < tables.old.spare.triggers }
{
    if tables.get_trigger(&row.spec.key).is_some() {
        drop(tables.change_trigger(row));
    } else {
        tables.insert_trigger(row);
    }
}

fn put_calendar(tables: &mut Tables, row: CalendarRow)
    requires { 0 < tables.old.spare.calendars }
{
    if tables.get_calendar(&row.name).is_some() {
        drop(tables.change_calendar(row));
    } else {
        tables.insert_calendar(row);
    }
}

fn put_zone(tables: &mut Tables, row: ZoneRow)
    requires { 0 < tables.old.spare.zones }
{
    if tables.get_zone(&row.name).is_none() {
        tables.insert_zone(row);
    }
}

fn put_member(tables: &mut Tables, row: MemberRow)
    requires { 0 < tables.old.spare.members }
{
    if tables.get_member(&row.node).is_some() {
        drop(tables.change_member(row));
    } else {
        tables.insert_member(row);
    }
}

fn put_group(tables: &mut Tables, name: Text)
    requires { 0 < tables.old.spare.paused_groups }
{
    if tables.get_group(&name).is_none() {
        tables.insert_group(name);
    }
}

fn put_job_group(tables: &mut Tables, name: Text)
    requires { 0 < tables.old.spare.paused_job_groups }
{
    if tables.get_job_group(&name).is_none() {
        tables.insert_job_group(name);
    }
}

fn put_fired(tables: &mut Tables, row: FiredRow)
    requires { 0 < tables.old.spare.fired }
{
    if tables.get_fired(row.entry).is_some() {
        drop(tables.change_fired(row));
    } else {
        tables.insert_fired(row);
    }
}

// Puts in the row of the edit, if it has one.
fn put(alloc: Global, tables: &mut Tables, edit: Edit) -> Result<(), NoMemory> {
    tables.reserve(1)?;
    match edit {
        Edit::Job(name, no_concurrent) => {
            if let Some(row) = job(alloc, name, no_concurrent)? {
                put_job(tables, row);
            }
        }
        Edit::Trigger(given) => {
            if let Some(row) = trigger(alloc, &given)? {
                put_trigger(tables, row);
            }
        }
        Edit::Calendar(name, base, zone) => {
            if let Some(row) = calendar(alloc, name, base, zone)? {
                put_calendar(tables, row);
            }
        }
        Edit::Zone(name) => {
            if let Some(row) = zone(alloc, name)? {
                put_zone(tables, row);
            }
        }
        Edit::Member(node, epoch) => {
            if let Some(row) = member(alloc, node, epoch)? {
                put_member(tables, row);
            }
        }
        Edit::Fired(given) => {
            if let Some(row) = fired(alloc, &given)? {
                put_fired(tables, row);
            }
        }
        _ => {}
    }
    Ok(())
}

// Puts in the paused group of the edit, if it has one.
fn put_paused(alloc: Global, tables: &mut Tables, edit: Edit) -> Result<(), NoMemory> {
    tables.reserve(1)?;
    match edit {
        Edit::Group(name) => {
            let name = Text::from_str(alloc, name)?;
            put_group(tables, name);
        }
        Edit::JobGroup(name) => {
            let name = Text::from_str(alloc, name)?;
            put_job_group(tables, name);
        }
        _ => {}
    }
    Ok(())
}

fn remove_keyed(alloc: Global, tables: &mut Tables, edit: Edit) -> Result<(), NoMemory> {
    match edit {
        Edit::NoJob(name) => {
            let key = key(alloc, name)?;
            drop(tables.remove_job(&key));
        }
        Edit::NoTrigger(name) => {
            let key = key(alloc, name)?;
            drop(tables.remove_trigger(&key));
        }
        _ => {}
    }
    Ok(())
}

fn remove_named(alloc: Global, tables: &mut Tables, edit: Edit) -> Result<(), NoMemory> {
    match edit {
        Edit::NoCalendar(name) => {
            let name = Text::from_str(alloc, name)?;
            drop(tables.remove_calendar(&name));
        }
        Edit::NoZone(name) => {
            let name = Text::from_str(alloc, name)?;
            drop(tables.remove_zone(&name));
        }
        Edit::NoMember(node) => {
            let node = Text::from_str(alloc, node)?;
            drop(tables.remove_member(&node));
        }
        _ => {}
    }
    Ok(())
}

fn set(tables: &mut Tables, edit: Edit) {
    match edit {
        Edit::NoFired(entry) => drop(tables.remove_fired(entry)),
        Edit::NextEntry(value) => tables.set_next_entry(value),
        Edit::NextEpoch(value) => tables.set_next_epoch(value),
        Edit::Threshold(value) => tables.set_threshold(value),
        Edit::LastMoment(value) => tables.set_last_moment(value),
        Edit::Horizon(value) => tables.set_horizon(value),
        _ => {}
    }
}

/// Makes the edit.
pub(super) fn make(alloc: Global, tables: &mut Tables, edit: Edit) -> Result<(), NoMemory> {
    put(alloc, tables, edit)?;
    put_paused(alloc, tables, edit)?;
    remove_keyed(alloc, tables, edit)?;
    remove_named(alloc, tables, edit)?;
    set(tables, edit);
    Ok(())
}
