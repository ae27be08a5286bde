//! The whole list.
ghost use Rattle.std.specs.Prelude.{◌≡◌, ◌++◌, IfOk, OnOk, string_bytes};
ghost use Rattle.std.specs.List.{flat_map};
ghost use Rattle.qz_listing.specs.Lines as spec;
ghost use Rattle.qz_listing.specs.Listing.{listed};

use crate::fired::push_states;
use crate::lines::push_all;
use crate::triggers::push_job_groups;
use qz_tables::Tables;
use qz_types::{NoMemory, StateRow, Text};
use std::alloc::Global;
use std::fmt::Write;

/// A line for each row of the tables and then for each row of the state store, and first the threshold. The kinds are zones,
/// calendars, jobs, triggers, paused groups of triggers and of jobs, members, fired rows and state rows. Each kind is in the order of its ids, and the
/// state rows are printed in the order in which they are given.
pub fn list_lines(alloc: Global, tables: &Tables, states: &[StateRow]) -> Result<Text, NoMemory>
    ensures { IfOk result (λ text. text ≡ listed tables.now.tables states.now) }
{
    let mut text = String::new(alloc);
    write!(text, "threshold {}\n", tables.threshold())?;
    push_plans(alloc, &mut text, tables)?;
    push_doings(alloc, &mut text, tables)?;
    push_states(&mut text, states)?;
    Ok(Text::from_string(text))
}

/// What is to be done: zones, calendars, jobs and triggers.
fn push_plans(alloc: Global, text: &mut String, tables: &Tables) -> Result<(), NoMemory>
    ensures { OnOk result (string_bytes text.new ≡ string_bytes text.old ++ flat_map spec.zone_line tables.now.tables.zones ++ flat_map spec.calendar_line tables.now.tables.calendars ++ flat_map spec.job_line tables.now.tables.jobs ++ flat_map spec.trigger_line tables.now.tables.triggers) }
{
    push_all(text, &tables.sorted_zones(alloc)?)?;
    push_all(text, &tables.sorted_calendars(alloc)?)?;
    push_all(text, &tables.sorted_jobs(alloc)?)?;
    push_all(text, &tables.sorted_triggers(alloc)?)?;
    Ok(())
}

/// What goes on: paused groups, members and what they have in their hands.
fn push_doings(alloc: Global, text: &mut String, tables: &Tables) -> Result<(), NoMemory>
    ensures { OnOk result (string_bytes text.new ≡ string_bytes text.old ++ flat_map spec.group_line tables.now.tables.paused_groups ++ flat_map spec.job_group_line tables.now.tables.paused_job_groups ++ flat_map spec.member_line tables.now.tables.members ++ flat_map spec.fired_line tables.now.tables.fired) }
{
    push_paused(alloc, text, tables)?;
    push_hands(alloc, text, tables)?;
    Ok(())
}

fn push_paused(alloc: Global, text: &mut String, tables: &Tables) -> Result<(), NoMemory>
    ensures { OnOk result (string_bytes text.new ≡ string_bytes text.old ++ flat_map spec.group_line tables.now.tables.paused_groups ++ flat_map spec.job_group_line tables.now.tables.paused_job_groups) }
{
    push_all(text, &tables.sorted_groups(alloc)?)?;
    push_job_groups(text, &tables.sorted_job_groups(alloc)?)?;
    Ok(())
}

fn push_hands(alloc: Global, text: &mut String, tables: &Tables) -> Result<(), NoMemory>
    ensures { OnOk result (string_bytes text.new ≡ string_bytes text.old ++ flat_map spec.member_line tables.now.tables.members ++ flat_map spec.fired_line tables.now.tables.fired) }
{
    push_all(text, &tables.sorted_members(alloc)?)?;
    push_all(text, &tables.sorted_fired(alloc)?)?;
    Ok(())
}
