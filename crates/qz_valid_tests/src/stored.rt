//! Cases of what is named and stored, and of the numbers of tables.
use crate::base::Given;
use crate::edits::Edit;
use crate::rows::GivenTrigger;
use qz_types::{LAST, TriggerState, VERSION_ONE_LAST};

// 200 bytes
const LONGEST: &str =
    "gggggggggggggggggggggggggggggggggggggggggggggggggggggggggggggggggggggggggggggggggggggggggggggggggggggggggggggggggggggggggggggggggggggggggggggggggggggggggggggggggggggggggggggggggggggggggggggggggggggggg";

// 201 bytes
const TOO_LONG: &str =
    "ggggggggggggggggggggggggggggggggggggggggggggggggggggggggggggggggggggggggggggggggggggggggggggggggggggggggggggggggggggggggggggggggggggggggggggggggggggggggggggggggggggggggggggggggggggggggggggggggggggggggg";

pub(super) const CASES: &[Given] = &[
    ("nothing", &[], true),
    ("a trigger's job is gone", &[Edit::NoJob("k")], false),
    (
        "a calendar that a trigger names is gone",
        &[Edit::NoCalendar("d")],
        false,
    ),
    (
        "the calendar below another is gone",
        &[Edit::NoCalendar("c")],
        false,
    ),
    ("a zone that is named is gone", &[Edit::NoZone("Z")], false),
    (
        "a trigger names a zone that isn't stored",
        &[Edit::Trigger(GivenTrigger {
            group: "G",
            name: "w",
            job: "k",
            calendar: None,
            zone: "Y",
            next: Some(300),
            state: TriggerState::Waiting,
        })],
        false,
    ),
    (
        "a calendar names a zone that isn't stored",
        &[Edit::Calendar("c", None, "Y")],
        false,
    ),
    (
        "a circle of calendars",
        &[Edit::Calendar("c", Some("d"), "UTC")],
        false,
    ),
    (
        "a calendar below itself",
        &[Edit::Calendar("c", Some("c"), "UTC")],
        false,
    ),
    (
        "a chain of eight",
        &[
            Edit::Calendar("c2", Some("c"), "UTC"),
            Edit::Calendar("c3", Some("c2"), "UTC"),
            Edit::Calendar("c4", Some("c3"), "UTC"),
            Edit::Calendar("c5", Some("c4"), "UTC"),
            Edit::Calendar("c6", Some("c5"), "UTC"),
            Edit::Calendar("c7", Some("c6"), "UTC"),
            Edit::Calendar("c8", Some("c7"), "UTC"),
        ],
        true,
    ),
    (
        "a chain of nine",
        &[
            Edit::Calendar("c2", Some("c"), "UTC"),
            Edit::Calendar("c3", Some("c2"), "UTC"),
            Edit::Calendar("c4", Some("c3"), "UTC"),
            Edit::Calendar("c5", Some("c4"), "UTC"),
            Edit::Calendar("c6", Some("c5"), "UTC"),
            Edit::Calendar("c7", Some("c6"), "UTC"),
            Edit::Calendar("c8", Some("c7"), "UTC"),
            Edit::Calendar("c9", Some("c8"), "UTC"),
        ],
        false,
    ),
    ("the threshold is 0", &[Edit::Threshold(0)], false),
    ("the threshold is a day", &[Edit::Threshold(86400000)], true),
    (
        "the threshold is more than a day",
        &[Edit::Threshold(86400001)],
        false,
    ),
    (
        "the horizon of version 1",
        &[Edit::Horizon(VERSION_ONE_LAST)],
        true,
    ),
    (
        "another horizon",
        &[Edit::Horizon(VERSION_ONE_LAST + 1)],
        false,
    ),
    (
        "the last moment is before 0",
        &[Edit::LastMoment(-1)],
        false,
    ),
    (
        "the last moment is the horizon",
        &[Edit::LastMoment(LAST)],
        true,
    ),
    (
        "the last moment is after the horizon",
        &[Edit::LastMoment(LAST + 1)],
        false,
    ),
    ("the greatest next entry", &[Edit::NextEntry(1 << 62)], true),
    (
        "the next entry is too great",
        &[Edit::NextEntry((1 << 62) + 1)],
        false,
    ),
    ("the greatest next epoch", &[Edit::NextEpoch(1 << 62)], true),
    (
        "the next epoch is too great",
        &[Edit::NextEpoch((1 << 62) + 1)],
        false,
    ),
    (
        "paused groups with the longest name",
        &[Edit::Group(LONGEST), Edit::JobGroup(LONGEST)],
        true,
    ),
    (
        "a paused group of triggers without a name",
        &[Edit::Group("")],
        false,
    ),
    (
        "a paused group of triggers whose name is too long",
        &[Edit::Group(TOO_LONG)],
        false,
    ),
    (
        "a paused group of jobs without a name",
        &[Edit::JobGroup("")],
        false,
    ),
    (
        "a paused group of jobs whose name is too long",
        &[Edit::JobGroup(TOO_LONG)],
        false,
    ),
];
