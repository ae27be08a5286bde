//! The rows and numbers of tables, as they are read from a snapshot.
ghost use Rattle.std.specs.Prelude.{◌≡◌, List, ℕ, IfOk, IfSome, IfNone, map};
ghost use Rattle.qz_types.specs.Tables.{SchedulerTables};
ghost use Rattle.qz_snapshot.specs.Snapshots.{AreRowsOf, BeginSnapshot, numbers_of};

use crate::heads::{Head, Numbers};
use crate::rows::take_kind;
use crate::snapshots::read_snapshot;
use qz_pieces::{RecordOfRow, RowKind};
use qz_types::{CalendarRow, FiredRow, JobRow, MemberRow, NoMemory, Text, TriggerRow, ZoneRow};
use std::alloc::Global;
use std::marker::Model;

/// The rows of each kind, and the numbers, as a snapshot has them. Whether they are valid tables is not known yet.
#[derive(Drop)]
pub struct Parts {
    pub jobs: Vec<JobRow>,
    pub triggers: Vec<TriggerRow>,
    pub calendars: Vec<CalendarRow>,
    pub zones: Vec<ZoneRow>,
    pub paused_groups: Vec<Text>,
    pub members: Vec<MemberRow>,
    pub fired: Vec<FiredRow>,
    pub paused_job_groups: Vec<Text>,
    pub numbers: Numbers,
}

impl Model for Parts {
    ghost use Rattle.qz_types.specs.Tables.{SchedulerTables};

    ghost Value = { SchedulerTables };

    ghost view = { λ a. record {
      jobs = a.jobs.items;
      triggers = a.triggers.items;
      calendars = a.calendars.items;
      zones = a.zones.items;
      paused_groups = a.paused_groups.items;
      paused_job_groups = a.paused_job_groups.items;
      members = a.members.items;
      fired = a.fired.items;
      next_entry = a.numbers.next_entry;
      next_epoch = a.numbers.next_epoch;
      threshold = a.numbers.threshold;
      last_moment = a.numbers.last_moment;
      horizon = a.numbers.horizon;
    } };
}

/// The head of the snapshot that these payloads begin with, and the tables that it is of, or None where they begin with none.
pub fn read_parts(alloc: Global, payloads: &[&[u8]]) -> Result<Option<(Head, Parts)>, NoMemory>
    ensures found { IfOk result (λ o. IfSome o (λ x. (more : List (List ℕ)) × BeginSnapshot (map (λ p. p.now) payloads.now) x.1 x.0.payloads x.0.entries more)) }
    ensures none { IfOk result (λ o. IfNone o ((T : SchedulerTables) (before entries : ℕ) (more : List (List ℕ)) → BeginSnapshot (map (λ p. p.now) payloads.now) T before entries more → ⊥)) }
{
    let Some((head, rows)) = read_snapshot(alloc, payloads)? else {
        return Ok(None);
    };
    match parts_of(alloc, head.numbers, &rows)? {
        Some(parts) => Ok(Some((head, parts))),
        None => Ok(None),
    }
}

// The tables with these numbers whose rows these records are, or None where they are those of no tables.
fn parts_of(
    alloc: Global,
    numbers: Numbers,
    rows: &[RecordOfRow],
) -> Result<Option<Parts>, NoMemory>
    ensures found { IfOk result (λ o. IfSome o (λ parts. AreRowsOf rows.now parts × (numbers_of parts ≡ numbers))) }
    ensures none { IfOk result (λ o. IfNone o ((T : SchedulerTables) → AreRowsOf rows.now T → ⊥)) }
{
    let Some((jobs, rest)) = take_kind(alloc, RowKind::Job, rows)? else {
        return Ok(None);
    };
    let Some((triggers, rest)) = take_kind(alloc, RowKind::Trigger, rest)? else {
        return Ok(None);
    };
    let Some((calendars, rest)) = take_kind(alloc, RowKind::Calendar, rest)? else {
        return Ok(None);
    };
    let Some((zones, rest)) = take_kind(alloc, RowKind::Zone, rest)? else {
        return Ok(None);
    };
    let Some((paused_groups, rest)) = take_kind(alloc, RowKind::Group, rest)? else {
        return Ok(None);
    };
    let Some((members, rest)) = take_kind(alloc, RowKind::Member, rest)? else {
        return Ok(None);
    };
    let Some((fired, rest)) = take_kind(alloc, RowKind::Fired, rest)? else {
        return Ok(None);
    };
    let Some((paused_job_groups, rest)) = take_kind(alloc, RowKind::JobGroup, rest)? else {
        return Ok(None);
    };
    if !rest.is_empty() {
        return Ok(None);
    }
    Ok(Some(Parts {
        jobs,
        triggers,
        calendars,
        zones,
        paused_groups,
        members,
        fired,
        paused_job_groups,
        numbers,
    }))
}
