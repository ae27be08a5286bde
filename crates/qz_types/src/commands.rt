//! Commands to the trigger store.
use crate::{CalendarRow, JobRow, Key, MemberRow, TriggerSpec, ZoneRow};
use qz_civil::Text;
use std::marker::Model;

/// What an execution asks for when it is done: Quartz's CompletedExecutionInstruction.
#[derive(Clone, Copy, PartialEq, Eq, Debug)]
pub enum Code {
    Noop,
    ReExecuteJob,
    SetTriggerComplete,
    DeleteTrigger,
    SetAllJobTriggersComplete,
    SetTriggerError,
    SetAllJobTriggersError,
}

/// One transaction of the trigger store, without its reading and actor. Leave, Acquire, Release, Fire, Complete, Misfires
/// and Recover are a node's, under the epoch that it holds; the others are a client's. Groups and names have 1 to
/// `NAME_LIMIT` bytes, those of nodes 1 to `NODE_LIMIT`.
#[derive(Debug, Drop)]
pub enum Command {
    /// Stores a job.
    AddJob {
        job: JobRow,
        replace: bool,
    },
    /// Removes a job with its triggers.
    DeleteJob {
        key: Key,
    },
    /// Stores a trigger.
    AddTrigger {
        spec: TriggerSpec,
        replace: bool,
    },
    /// Removes a trigger.
    DeleteTrigger {
        key: Key,
    },
    /// The trigger fires no more until it is resumed.
    PauseTrigger {
        key: Key,
    },
    /// The trigger fires again.
    ResumeTrigger {
        key: Key,
    },
    /// Pauses each trigger of the group, and each that is stored in it later.
    PauseGroup {
        group: Text,
    },
    /// Resumes each trigger of the group, but those whose job's group is paused.
    ResumeGroup {
        group: Text,
    },
    /// Stores a calendar.
    AddCalendar {
        calendar: CalendarRow,
        replace: bool,
    },
    /// Removes a calendar.
    DeleteCalendar {
        name: Text,
    },
    /// Stores a zone.
    AddZone {
        zone: ZoneRow,
    },
    /// Removes a zone.
    DeleteZone {
        name: Text,
    },
    /// Stores a trigger that fires the job once, now.
    TriggerNow {
        job: Key,
    },
    /// Sets how far back a next fire time may lie, in ms, before its trigger is misfired: 1 to `INTERVAL_LIMIT`.
    Threshold {
        ms: i64,
    },
    /// A node becomes a member.
    Join {
        node: Text,
    },
    /// The node is a member no more.
    Leave,
    /// The node takes up to `max` triggers whose next time is at most `no_later + window`, both in ms. They are 0 to
    /// `LONGEST`, and `max` is 1 to `ACQUIRE_LIMIT`.
    Acquire {
        no_later: i64,
        window: i64,
        max: u32,
    },
    /// The node gives back what it acquired.
    Release {
        entry: u64,
    },
    /// The node begins the execution of what it acquired.
    Fire {
        entry: u64,
    },
    /// The node ends an execution.
    Complete {
        entry: u64,
        code: Code,
    },
    /// The node moves the triggers that are misfired, as each one's instruction says.
    Misfires,
    /// The node recovers what a failed member, `node`, had in its hands.
    Recover {
        node: Text,
    },
    /// Takes the store of format version 1 to version 2: its fire times may go on to `LAST`.
    Upgrade,
    /// Takes the trigger out of the state ERROR.
    ResetTrigger {
        key: Key,
    },
    /// Pauses each trigger of the group's jobs, and each that is stored for one of them later.
    PauseJobGroup {
        group: Text,
    },
    /// Resumes each trigger of the group's jobs, but those whose own group is paused.
    ResumeJobGroup {
        group: Text,
    },
}

/// Who asks for a transaction.
#[derive(Drop)]
pub enum Actor {
    Client,
    /// A node under the epoch that it holds.
    Node(MemberRow),
}

/// A transaction as histories keep it. A node's commands have a node as actor, the others a client.
#[derive(Drop)]
pub struct Entry {
    /// The reading of the clock, in ms since 1970-01-01T00:00:00Z. Any number: it is clamped when it is recorded.
    pub at: i64,
    pub actor: Actor,
    /// Which of the callers that share a store asked; 0 for a lone caller.
    pub seat: u32,
    pub command: Command,
}

impl Model for Entry {
    ghost use Rattle.std.specs.Prelude.{IsTrue};
    ghost use Rattle.qz_types.specs.Entries.{EntryData, is_entry};

    ghost Value = { EntryData };

    ghost view = { λ a. record { at = a.at; actor = a.actor; seat = a.seat; command = a.command } };

    ghost invariant = { λ a. IsTrue (is_entry (record { at = a.at; actor = a.actor; seat = a.seat; command = a.command })) };

    ghost inverse = { λ d. record { at = d.at; actor = d.actor; seat = d.seat; command = d.command } };
}
