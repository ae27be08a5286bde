//! Valid tables, which the cases edit.
use crate::edits::Edit;
use crate::rows::{GivenFired, GivenTrigger};
use qz_types::{FiredState, TriggerState};

/// The job j has an execution, 3, that excludes others. The job k has an acquired trigger, 5, and two executions, 4 and 6.
pub(super) const BASE: &[Edit] = &[
    Edit::NextEntry(7),
    Edit::NextEpoch(3),
    Edit::LastMoment(150),
    Edit::Zone("Z"),
    Edit::Calendar("c", None, "UTC"),
    Edit::Calendar("d", Some("c"), "Z"),
    Edit::Member("A", 1),
    Edit::Member("B", 2),
    Edit::Job("j", true),
    Edit::Job("k", false),
    Edit::Trigger(GivenTrigger {
        group: "G",
        name: "a",
        job: "k",
        calendar: Some("d"),
        zone: "Z",
        next: Some(100),
        state: TriggerState::Acquired,
    }),
    Edit::Trigger(GivenTrigger {
        group: "G",
        name: "b",
        job: "j",
        calendar: None,
        zone: "UTC",
        next: Some(200),
        state: TriggerState::Blocked,
    }),
    Edit::Trigger(GivenTrigger {
        group: "G",
        name: "e",
        job: "j",
        calendar: None,
        zone: "UTC",
        next: None,
        state: TriggerState::Error,
    }),
    Edit::Trigger(GivenTrigger {
        group: "G",
        name: "p",
        job: "j",
        calendar: None,
        zone: "UTC",
        next: Some(50),
        state: TriggerState::PausedBlocked,
    }),
    Edit::Trigger(GivenTrigger {
        group: "G",
        name: "w",
        job: "k",
        calendar: None,
        zone: "UTC",
        next: Some(300),
        state: TriggerState::Waiting,
    }),
    Edit::Trigger(NOW),
    Edit::Fired(EXCLUSIVE),
    Edit::Fired(FREE),
    Edit::Fired(ACQUIRED),
    Edit::Fired(ALSO_FREE),
];

const NOW: GivenTrigger = GivenTrigger {
    group: "MANUAL_TRIGGERS",
    name: "now_2",
    job: "k",
    calendar: None,
    zone: "UTC",
    next: Some(120),
    state: TriggerState::Waiting,
};

const EXCLUSIVE: GivenFired = GivenFired {
    entry: 3,
    node: "A",
    epoch: 1,
    trigger: "b",
    job: "j",
    state: FiredState::Executing,
    scheduled: 100,
    fired: Some(100),
    no_concurrent: true,
};

const FREE: GivenFired = GivenFired {
    entry: 4,
    node: "B",
    epoch: 2,
    trigger: "w",
    job: "k",
    state: FiredState::Executing,
    scheduled: 90,
    fired: Some(110),
    no_concurrent: false,
};

const ACQUIRED: GivenFired = GivenFired {
    entry: 5,
    node: "B",
    epoch: 2,
    trigger: "a",
    job: "k",
    state: FiredState::Acquired,
    scheduled: 100,
    fired: None,
    no_concurrent: false,
};

const ALSO_FREE: GivenFired = GivenFired {
    entry: 6,
    node: "A",
    epoch: 1,
    trigger: "w",
    job: "k",
    state: FiredState::Executing,
    scheduled: 95,
    fired: Some(95),
    no_concurrent: false,
};

/// What is said, the edits, and whether the tables are valid after them.
pub(super) type Given = (&'static str, &'static [Edit], bool);
