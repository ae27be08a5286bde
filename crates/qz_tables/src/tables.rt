//! The tables whole: their numbers, and the room for rows.
ghost use Rattle.std.specs.Prelude.{◌≡◌, [], IsOk, OnOk};
ghost use Rattle.qz_types.specs.Tables.{empty};
ghost use Rattle.qz_tables.specs.Contents.{KeepsSpare, HasSpare, HasSpareOf};

use crate::indexed::Indexed;
use crate::linked::Linked;
use qz_types::{
    CalendarRow, FIRST_THRESHOLD, FiredRow, JobRow, LAST, MemberRow, NoMemory, Text,
    VERSION_ONE_LAST, ZoneRow,
};
use std::alloc::Global;
use std::marker::Model;

/// How many rows of each kind.
#[derive(Clone, Copy)]
pub struct RowCounts {
    pub jobs: usize,
    pub triggers: usize,
    pub calendars: usize,
    pub zones: usize,
    pub paused_groups: usize,
    pub paused_job_groups: usize,
    pub members: usize,
    pub fired: usize,
}

/// The tables of the trigger store: rows of eight kinds, each in the order of its ids, and numbers.
///
/// A row is found at once, or by binary search. Of all calls only `reserve` and those that give sorted rows take memory: rows
/// are put in where `reserve` made room before.
#[derive(Drop)]
pub struct Tables {
    pub(crate) jobs: Indexed<JobRow>,
    pub(crate) triggers: Linked,
    pub(crate) calendars: Indexed<CalendarRow>,
    pub(crate) zones: Indexed<ZoneRow>,
    pub(crate) paused_groups: Indexed<Text>,
    pub(crate) paused_job_groups: Indexed<Text>,
    pub(crate) members: Indexed<MemberRow>,
    pub(crate) fired: Indexed<FiredRow>,
    pub(crate) next_entry: u64,
    pub(crate) next_epoch: u64,
    pub(crate) threshold: i64,
    pub(crate) last_moment: i64,
    pub(crate) horizon: i64,
}

impl Model for Tables {
    ghost use Rattle.qz_tables.specs.Contents.{TablesData};

    ghost Value = { TablesData };

    ghost view = { λ a. record {
      tables = record {
        jobs = a.jobs.rows;
        triggers = a.triggers.rows;
        calendars = a.calendars.rows;
        zones = a.zones.rows;
        paused_groups = a.paused_groups.rows;
        paused_job_groups = a.paused_job_groups.rows;
        members = a.members.rows;
        fired = a.fired.rows;
        next_entry = a.next_entry;
        next_epoch = a.next_epoch;
        threshold = a.threshold;
        last_moment = a.last_moment;
        horizon = a.horizon;
      };
      links = a.triggers.links;
      spare = record {
        jobs = a.jobs.spare;
        triggers = a.triggers.spare;
        calendars = a.calendars.spare;
        zones = a.zones.spare;
        paused_groups = a.paused_groups.spare;
        paused_job_groups = a.paused_job_groups.spare;
        members = a.members.spare;
        fired = a.fired.spare;
      };
    } };
}

// The horizon of a new store of this version.
fn horizon_of(version: u8) -> i64
    ensures { result ≡ (empty version).horizon }
{
    if version == 1 { VERSION_ONE_LAST } else { LAST }
}

impl Tables {
    /// The tables of a new store of this format version, 1 or 2. They differ in the horizon alone.
    pub fn new(alloc: Global, version: u8) -> Self
        ensures tables { result.tables ≡ empty version }
        ensures links { result.links ≡ [] }
    {
        Tables {
            jobs: Indexed::new(alloc),
            triggers: Linked::new(alloc),
            calendars: Indexed::new(alloc),
            zones: Indexed::new(alloc),
            paused_groups: Indexed::new(alloc),
            paused_job_groups: Indexed::new(alloc),
            members: Indexed::new(alloc),
            fired: Indexed::new(alloc),
            next_entry: 1,
            next_epoch: 1,
            threshold: FIRST_THRESHOLD,
            last_moment: 0,
            horizon: horizon_of(version),
        }
    }

    /// Makes room for so many rows more of each kind. It takes no memory for a kind that has that room already.
    pub fn reserve(&mut self, rows: usize) -> Result<(), NoMemory>
        ensures tables { self.new.tables ≡ self.old.tables }
        ensures links { self.new.links ≡ self.old.links }
        ensures spare { KeepsSpare self.old.spare self.new.spare }
        ensures room { OnOk result (HasSpare rows self.new.spare) }
        ensures succeeds { HasSpare rows self.old.spare → IsOk result }
    {
        self.jobs.reserve(rows)?;
        self.triggers.reserve(rows)?;
        self.calendars.reserve(rows)?;
        self.zones.reserve(rows)?;
        self.paused_groups.reserve(rows)?;
        self.paused_job_groups.reserve(rows)?;
        self.members.reserve(rows)?;
        self.fired.reserve(rows)?;
        Ok(())
    }

    /// Makes room for so many rows more, of each kind as many as this says. It takes no memory for a kind that has that room
    /// already.
    pub fn reserve_each(&mut self, rows: &RowCounts) -> Result<(), NoMemory>
        ensures tables { self.new.tables ≡ self.old.tables }
        ensures links { self.new.links ≡ self.old.links }
        ensures spare { KeepsSpare self.old.spare self.new.spare }
        ensures room { OnOk result (HasSpareOf rows.now self.new.spare) }
        ensures succeeds { HasSpareOf rows.now self.old.spare → IsOk result }
    {
        self.jobs.reserve(rows.jobs)?;
        self.triggers.reserve(rows.triggers)?;
        self.calendars.reserve(rows.calendars)?;
        self.zones.reserve(rows.zones)?;
        self.paused_groups.reserve(rows.paused_groups)?;
        self.paused_job_groups.reserve(rows.paused_job_groups)?;
        self.members.reserve(rows.members)?;
        self.fired.reserve(rows.fired)?;
        Ok(())
    }

    /// What gives the tables memory.
    pub fn allocator(&self) -> Global {
        self.triggers.allocator()
    }

    /// The entry number that the next fired row gets.
    pub fn next_entry(&self) -> u64
        ensures { result ≡ self.now.tables.next_entry }
    {
        self.next_entry
    }

    /// The epoch that the next member gets.
    pub fn next_epoch(&self) -> u64
        ensures { result ≡ self.now.tables.next_epoch }
    {
        self.next_epoch
    }

    /// How far back a next time may be before its trigger is misfired, in ms.
    pub fn threshold(&self) -> i64
        ensures { result ≡ self.now.tables.threshold }
    {
        self.threshold
    }

    /// The recorded moment of the last transaction, in ms since 1970-01-01T00:00:00Z.
    pub fn last_moment(&self) -> i64
        ensures { result ≡ self.now.tables.last_moment }
    {
        self.last_moment
    }

    /// The last moment that is ever recorded, and the last fire time, in ms since 1970-01-01T00:00:00Z.
    pub fn horizon(&self) -> i64
        ensures { result ≡ self.now.tables.horizon }
    {
        self.horizon
    }

    /// Sets the next entry number, and changes nothing else.
    pub fn set_next_entry(&mut self, value: u64)
        ensures { self.new ≡ record self.old { tables = record self.old.tables { next_entry = value } } }
    {
        self.next_entry = value;
    }

    /// Sets the next epoch, and changes nothing else.
    pub fn set_next_epoch(&mut self, value: u64)
        ensures { self.new ≡ record self.old { tables = record self.old.tables { next_epoch = value } } }
    {
        self.next_epoch = value;
    }

    /// Sets the threshold, in ms, and changes nothing else.
    pub fn set_threshold(&mut self, value: i64)
        ensures { self.new ≡ record self.old { tables = record self.old.tables { threshold = value } } }
    {
        self.threshold = value;
    }

    /// Sets the last moment, in ms since 1970-01-01T00:00:00Z, and changes nothing else.
    pub fn set_last_moment(&mut self, value: i64)
        ensures { self.new ≡ record self.old { tables = record self.old.tables { last_moment = value } } }
    {
        self.last_moment = value;
    }

    /// Sets the horizon, in ms since 1970-01-01T00:00:00Z, and changes nothing else.
    pub fn set_horizon(&mut self, value: i64)
        ensures { self.new ≡ record self.old { tables = record self.old.tables { horizon = value } } }
    {
        self.horizon = value;
    }
}
