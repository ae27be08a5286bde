//! Tables that are filled with rows, kind by kind.
ghost use Rattle.std.specs.Prelude.{◌≡◌, ◌+◌, ◌≤◌, [], length, IfOk};
ghost use Rattle.std.specs.Ordering.{nat_cmp};
ghost use Rattle.qz_types.specs.Sorted.{IsAscending};
ghost use Rattle.qz_types.specs.Words.{key_cmp, text_cmp};
ghost use Rattle.qz_tables.specs.Contents.{KeepsSpare};
ghost use Rattle.qz_model.specs.Invariant.{AreOrdered};
ghost use Rattle.qz_snapshot.specs.Filling.{row_counts};

use crate::heads::Numbers;
use crate::parts::Parts;
use qz_tables::{RowCounts, Tables};
use qz_types::{CalendarRow, FiredRow, JobRow, MemberRow, NoMemory, Text, TriggerRow, ZoneRow};
use std::alloc::Global;

/// The format version of tables that are filled. They get their own horizon.
const ANY_VERSION: u8 = 2;

// Puts in jobs, where there are none, in the order of their ids.
fn fill_jobs(tables: &mut Tables, rows: Vec<JobRow>)
    requires none { tables.old.tables.jobs ≡ [] }
    requires ascending { IsAscending key_cmp (λ r. r.key) rows.items }
    requires room { length rows.items ≤ tables.old.spare.jobs }
    ensures tables { tables.new.tables ≡ record tables.old.tables { jobs = rows.items } }
    ensures spare { KeepsSpare tables.old.spare (record tables.new.spare { jobs = tables.new.spare.jobs + length rows.items }) }
{
    for row in rows {
        tables.insert_job(row);
    }
}

// Puts in triggers, where there are none, in the order of their ids.
fn fill_triggers(tables: &mut Tables, rows: Vec<TriggerRow>)
    requires none { tables.old.tables.triggers ≡ [] }
    requires ascending { IsAscending key_cmp (λ r. r.spec.key) rows.items }
    requires room { length rows.items ≤ tables.old.spare.triggers }
    ensures tables { tables.new.tables ≡ record tables.old.tables { triggers = rows.items } }
    ensures spare { KeepsSpare tables.old.spare (record tables.new.spare { triggers = tables.new.spare.triggers + length rows.items }) }
{
    for row in rows {
        tables.insert_trigger(row);
    }
}

// Puts in calendars, where there are none, in the order of their ids.
fn fill_calendars(tables: &mut Tables, rows: Vec<CalendarRow>)
    requires none { tables.old.tables.calendars ≡ [] }
    requires ascending { IsAscending text_cmp (λ r. r.name) rows.items }
    requires room { length rows.items ≤ tables.old.spare.calendars }
    ensures tables { tables.new.tables ≡ record tables.old.tables { calendars = rows.items } }
    ensures spare { KeepsSpare tables.old.spare (record tables.new.spare { calendars = tables.new.spare.calendars + length rows.items }) }
{
    for row in rows {
        tables.insert_calendar(row);
    }
}

// Puts in zones, where there are none, in the order of their ids.
fn fill_zones(tables: &mut Tables, rows: Vec<ZoneRow>)
    requires none { tables.old.tables.zones ≡ [] }
    requires ascending { IsAscending text_cmp (λ r. r.name) rows.items }
    requires room { length rows.items ≤ tables.old.spare.zones }
    ensures tables { tables.new.tables ≡ record tables.old.tables { zones = rows.items } }
    ensures spare { KeepsSpare tables.old.spare (record tables.new.spare { zones = tables.new.spare.zones + length rows.items }) }
{
    for row in rows {
        tables.insert_zone(row);
    }
}

// Puts in paused groups of triggers, where there are none, in the order of their ids.
fn fill_paused_groups(tables: &mut Tables, rows: Vec<Text>)
    requires none { tables.old.tables.paused_groups ≡ [] }
    requires ascending { IsAscending text_cmp (λ r. r) rows.items }
    requires room { length rows.items ≤ tables.old.spare.paused_groups }
    ensures tables { tables.new.tables ≡ record tables.old.tables { paused_groups = rows.items } }
    ensures spare { KeepsSpare tables.old.spare (record tables.new.spare { paused_groups = tables.new.spare.paused_groups + length rows.items }) }
{
    for row in rows {
        tables.insert_group(row);
    }
}

// Puts in paused groups of jobs, where there are none, in the order of their ids.
fn fill_paused_job_groups(tables: &mut Tables, rows: Vec<Text>)
    requires none { tables.old.tables.paused_job_groups ≡ [] }
    requires ascending { IsAscending text_cmp (λ r. r) rows.items }
    requires room { length rows.items ≤ tables.old.spare.paused_job_groups }
    ensures tables { tables.new.tables ≡ record tables.old.tables { paused_job_groups = rows.items } }
    ensures spare { KeepsSpare tables.old.spare (record tables.new.spare { paused_job_groups = tables.new.spare.paused_job_groups + length rows.items }) }
{
    for row in rows {
        tables.insert_job_group(row);
    }
}

// Puts in members, where there are none, in the order of their ids.
fn fill_members(tables: &mut Tables, rows: Vec<MemberRow>)
    requires none { tables.old.tables.members ≡ [] }
    requires ascending { IsAscending text_cmp (λ r. r.node) rows.items }
    requires room { length rows.items ≤ tables.old.spare.members }
    ensures tables { tables.new.tables ≡ record tables.old.tables { members = rows.items } }
    ensures spare { KeepsSpare tables.old.spare (record tables.new.spare { members = tables.new.spare.members + length rows.items }) }
{
    for row in rows {
        tables.insert_member(row);
    }
}

// Puts in fired rows, where there are none, in the order of their ids.
fn fill_fired(tables: &mut Tables, rows: Vec<FiredRow>)
    requires none { tables.old.tables.fired ≡ [] }
    requires ascending { IsAscending nat_cmp (λ r. r.entry) rows.items }
    requires room { length rows.items ≤ tables.old.spare.fired }
    ensures tables { tables.new.tables ≡ record tables.old.tables { fired = rows.items } }
    ensures spare { KeepsSpare tables.old.spare (record tables.new.spare { fired = tables.new.spare.fired + length rows.items }) }
{
    for row in rows {
        tables.insert_fired(row);
    }
}

// The numbers of tables.
fn set_numbers(tables: &mut Tables, numbers: &Numbers)
    ensures { tables.new.tables ≡ record tables.old.tables {
      next_entry = numbers.now.next_entry;
      next_epoch = numbers.now.next_epoch;
      threshold = numbers.now.threshold;
      last_moment = numbers.now.last_moment;
      horizon = numbers.now.horizon;
    } }
{
    tables.set_next_entry(numbers.next_entry);
    tables.set_next_epoch(numbers.next_epoch);
    tables.set_threshold(numbers.threshold);
    tables.set_last_moment(numbers.last_moment);
    tables.set_horizon(numbers.horizon);
}

// How many rows of each kind there are.
fn count_rows(parts: &Parts) -> RowCounts
    ensures { result ≡ row_counts parts.now }
{
    RowCounts {
        jobs: parts.jobs.len(),
        triggers: parts.triggers.len(),
        calendars: parts.calendars.len(),
        zones: parts.zones.len(),
        paused_groups: parts.paused_groups.len(),
        paused_job_groups: parts.paused_job_groups.len(),
        members: parts.members.len(),
        fired: parts.fired.len(),
    }
}

/// The tables of these rows and numbers. The rows of each kind have to be in the order of their ids.
pub(crate) fn fill(alloc: Global, parts: Parts) -> Result<Tables, NoMemory>
    requires { AreOrdered parts }
    ensures { IfOk result (λ tables. tables.tables ≡ parts) }
{
    let counts = count_rows(&parts);
    let mut tables = Tables::new(alloc, ANY_VERSION);
    if let Err(error) = tables.reserve_each(&counts) {
        drop(tables);
        drop(parts);
        return Err(error);
    }
    let Parts {
        jobs,
        triggers,
        calendars,
        zones,
        paused_groups,
        members,
        fired,
        paused_job_groups,
        numbers,
    } = parts;
    fill_jobs(&mut tables, jobs);
    fill_triggers(&mut tables, triggers);
    fill_calendars(&mut tables, calendars);
    fill_zones(&mut tables, zones);
    fill_paused_groups(&mut tables, paused_groups);
    fill_paused_job_groups(&mut tables, paused_job_groups);
    fill_members(&mut tables, members);
    fill_fired(&mut tables, fired);
    set_numbers(&mut tables, &numbers);
    Ok(tables)
}
