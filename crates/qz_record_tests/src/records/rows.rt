//! Records of rows.
use super::{Of, Spoiled, place_in};
use qz_codec::{get_row, put_row};
use qz_types::{FiredRow, FiredState, StateRow, Text, TriggerRow, TriggerState};
use std::alloc::Global;
use std::test::*;

/// The job g/n of class c, which is durable and requests recovery, with the payload {}.
const JOB: &[u8; 17] = b"\x02\
    \x00\x01\x67\
    \x00\x01\x6e\
    \x00\x01\x63\
    \x01\
    \x00\
    \x01\
    \x00\x02\x7b\x7d";

/// The trigger g/t of g/n, of priority -1 and on the calendar h: each 1000 ms from 2024-01-01T00:00:00Z on without end,
/// misfires ignored. It fires next at -2 ms, never fired before, is counted 2^63 times and is paused.
const TRIGGER: &[u8; 67] = b"\x02\
    \x00\x01\x67\
    \x00\x01\x74\
    \x00\x01\x67\
    \x00\x01\x6e\
    \xff\xff\xff\xff\
    \x01\x00\x01\x68\
    \x00\
    \x00\x00\x00\x00\x00\x00\x03\xe8\
    \xff\xff\xff\xff\xff\xff\xff\xff\
    \xff\
    \x00\x00\x01\x8c\xc2\x51\xf4\x00\
    \x00\
    \x01\
    \xff\xff\xff\xff\xff\xff\xff\xfe\
    \x00\
    \x80\x00\x00\x00\x00\x00\x00\x00\
    \x04";

/// Entry 7 of the member A of epoch 1: g/t of g/n, of priority -1, is executing. It was to fire at -2 ms and did at 3 ms, and
/// its job isn't run beside itself.
const FIRED: &[u8; 56] = b"\x02\
    \x00\x00\x00\x00\x00\x00\x00\x07\
    \x00\x01\x41\
    \x00\x00\x00\x00\x00\x00\x00\x01\
    \x00\x01\x67\
    \x00\x01\x74\
    \x00\x01\x67\
    \x00\x01\x6e\
    \xff\xff\xff\xff\
    \x01\
    \xff\xff\xff\xff\xff\xff\xff\xfe\
    \x01\
    \x00\x00\x00\x00\x00\x00\x00\x03\
    \x01\
    \x00";

/// The member A of epoch 258.
const MEMBER: &[u8; 12] = b"\x02\
    \x00\x01\x41\
    \x00\x00\x00\x00\x00\x00\x01\x02";

/// A checked in last at -2 ms, and means to each 7500 ms.
const STATE: &[u8; 20] = b"\x02\
    \x00\x01\x41\
    \xff\xff\xff\xff\xff\xff\xff\xfe\
    \x00\x00\x00\x00\x00\x00\x1d\x4c";

/// The group g.
const GROUP: &[u8; 4] = b"\x02\x00\x01\x67";

/// The calendar c in UTC without Saturdays and Sundays.
const CALENDAR: &[u8; 12] = b"\x02\
    \x00\x01\x63\
    \x00\
    \x00\x03\x55\x54\x43\
    \x02\
    \x41";

/// The zone z: an hour from 1970-01-01T00:00:00Z on.
const ZONE: &[u8; 18] = b"\x02\
    \x00\x01\x7a\
    \x00\x01\
    \x00\x00\x00\x00\x00\x00\x00\x00\
    \x00\x00\x0e\x10";

/// A row of each type; that of a group is written apart.
pub(super) const SAMPLES: &[(Of, &[u8])] = &[
    (Of::JobRow, JOB),
    (Of::TriggerRow, TRIGGER),
    (Of::FiredRow, FIRED),
    (Of::MemberRow, MEMBER),
    (Of::StateRow, STATE),
    (Of::CalendarRow, CALENDAR),
    (Of::ZoneRow, ZONE),
];

fn is_trigger(row: &TriggerRow) -> bool {
    row.spec.key.name.as_str() == "t"
        && row.next == Some(-2)
        && row.prev == None
        && row.times == 1 << 63
        && row.state == TriggerState::Paused
}

fn is_fired_row(row: &FiredRow) -> bool {
    row.entry == 7
        && row.epoch == 1
        && row.trigger.name.as_str() == "t"
        && row.job.name.as_str() == "n"
        && row.state == FiredState::Executing
        && row.scheduled == -2
        && row.fired == Some(3)
        && row.no_concurrent
        && !row.requests_recovery
}

fn is_state_row(row: &StateRow) -> bool {
    row.node.as_str() == "A" && row.last == -2 && row.interval == 7500
}

fn reads_trigger(alloc: Global) -> Option<bool> {
    let row = get_row(alloc, TRIGGER).ok()?;
    let is_right = is_trigger(&row);
    drop(row);
    Some(is_right)
}

fn reads_fired(alloc: Global) -> Option<bool> {
    let row = get_row(alloc, FIRED).ok()?;
    let is_right = is_fired_row(&row);
    drop(row);
    Some(is_right)
}

fn reads_state(alloc: Global) -> Option<bool> {
    let row = get_row(alloc, STATE).ok()?;
    let is_right = is_state_row(&row);
    drop(row);
    Some(is_right)
}

fn reads_group(alloc: Global) -> Option<bool> {
    let group: Text = get_row(alloc, GROUP).ok()?;
    Some(group.as_str() == "g")
}

fn writes_group(alloc: Global) -> Option<bool> {
    let group = Text::from_str(alloc, "g").ok()?;
    let bytes = put_row(alloc, &group).ok()?;
    Some(bytes.as_slice() == GROUP.as_slice())
}

#[test]
fn rows_are_read_with_their_values(rt: HostRuntime) {
    assert!(rt; reads_group(rt.alloc()) == Some(true));
    assert!(rt; writes_group(rt.alloc()) == Some(true));
    assert!(rt; reads_trigger(rt.alloc()) == Some(true));
    assert!(rt; reads_fired(rt.alloc()) == Some(true));
    assert!(rt; reads_state(rt.alloc()) == Some(true));
}

// The state of the trigger whose record has this byte at its end.
fn state_at_place(alloc: Global, place: u8) -> Option<TriggerState> {
    let mut bytes = Vec::from_slice(alloc, &TRIGGER[..66]).ok()?;
    bytes.push(place).ok()?;
    let row: TriggerRow = get_row(alloc, &bytes).ok()?;
    let state = row.state;
    drop(row);
    Some(state)
}

#[test]
fn states_of_triggers(rt: HostRuntime) {
    let states = [
        TriggerState::Waiting,
        TriggerState::Acquired,
        TriggerState::Complete,
        TriggerState::Blocked,
        TriggerState::Paused,
        TriggerState::PausedBlocked,
        TriggerState::Error,
    ];
    let mut place = 0;
    for state in states {
        if place < 7 {
            assert!(rt; state_at_place(rt.alloc(), place) == Some(state));
            place += 1;
        }
    }
    assert!(rt; place == 7);
}

/// Jobs that are wrong in one place.
pub(super) const SPOILED_JOBS: &[Spoiled] = &[
    // Another version, a group without bytes, a flag that is none, a payload of 4097 bytes, one that is cut.
    Spoiled {
        of: Of::JobRow,
        record: JOB,
        from: 0,
        bytes: &[0],
        at: 0,
    },
    Spoiled {
        of: Of::JobRow,
        record: JOB,
        from: 1,
        bytes: &[0, 0],
        at: 1,
    },
    Spoiled {
        of: Of::JobRow,
        record: JOB,
        from: 11,
        bytes: &[2],
        at: 11,
    },
    Spoiled {
        of: Of::JobRow,
        record: JOB,
        from: 13,
        bytes: &[0x10, 1],
        at: 13,
    },
    Spoiled {
        of: Of::JobRow,
        record: JOB,
        from: 14,
        bytes: &[3],
        at: 15,
    },
    // A byte behind the record.
    Spoiled {
        of: Of::JobRow,
        record: JOB,
        from: 17,
        bytes: &[0],
        at: 17,
    },
];

/// Triggers that are wrong in one place.
pub(super) const SPOILED_TRIGGERS: &[Spoiled] = &[
    // A misfire instruction that the kind doesn't have, and flags that are none.
    Spoiled {
        of: Of::TriggerRow,
        record: TRIGGER,
        from: 38,
        bytes: &[6],
        at: 38,
    },
    Spoiled {
        of: Of::TriggerRow,
        record: TRIGGER,
        from: 47,
        bytes: &[2],
        at: 47,
    },
    Spoiled {
        of: Of::TriggerRow,
        record: TRIGGER,
        from: 48,
        bytes: &[2],
        at: 48,
    },
    Spoiled {
        of: Of::TriggerRow,
        record: TRIGGER,
        from: 57,
        bytes: &[2],
        at: 57,
    },
    // A count beyond 2^63, a state that isn't there, a byte behind the record.
    Spoiled {
        of: Of::TriggerRow,
        record: TRIGGER,
        from: 65,
        bytes: &[1],
        at: 58,
    },
    Spoiled {
        of: Of::TriggerRow,
        record: TRIGGER,
        from: 66,
        bytes: &[7],
        at: 66,
    },
    Spoiled {
        of: Of::TriggerRow,
        record: TRIGGER,
        from: 67,
        bytes: &[0],
        at: 67,
    },
];

/// Fired rows that are wrong in one place.
pub(super) const SPOILED_FIRED: &[Spoiled] = &[
    // A node of 121 bytes, a group without bytes, a state that isn't there.
    Spoiled {
        of: Of::FiredRow,
        record: FIRED,
        from: 9,
        bytes: &[0, 121],
        at: 9,
    },
    Spoiled {
        of: Of::FiredRow,
        record: FIRED,
        from: 20,
        bytes: &[0, 0],
        at: 20,
    },
    Spoiled {
        of: Of::FiredRow,
        record: FIRED,
        from: 36,
        bytes: &[2],
        at: 36,
    },
    // Flags that are none, and a byte behind the record.
    Spoiled {
        of: Of::FiredRow,
        record: FIRED,
        from: 45,
        bytes: &[2],
        at: 45,
    },
    Spoiled {
        of: Of::FiredRow,
        record: FIRED,
        from: 54,
        bytes: &[2],
        at: 54,
    },
    Spoiled {
        of: Of::FiredRow,
        record: FIRED,
        from: 55,
        bytes: &[2],
        at: 55,
    },
    Spoiled {
        of: Of::FiredRow,
        record: FIRED,
        from: 56,
        bytes: &[0],
        at: 56,
    },
];

/// Members that are wrong in one place.
pub(super) const SPOILED_MEMBERS: &[Spoiled] = &[
    // A node that isn't UTF-8, and a byte behind the record.
    Spoiled {
        of: Of::MemberRow,
        record: MEMBER,
        from: 3,
        bytes: &[0xff],
        at: 3,
    },
    Spoiled {
        of: Of::MemberRow,
        record: MEMBER,
        from: 12,
        bytes: &[0],
        at: 12,
    },
];

/// Check-ins that are wrong in one place.
pub(super) const SPOILED_STATES: &[Spoiled] = &[
    // Intervals of 0 and of a day and 1 ms, and a byte behind the record.
    Spoiled {
        of: Of::StateRow,
        record: STATE,
        from: 18,
        bytes: &[0, 0],
        at: 12,
    },
    Spoiled {
        of: Of::StateRow,
        record: STATE,
        from: 16,
        bytes: &[5, 0x26, 0x5c, 1],
        at: 12,
    },
    Spoiled {
        of: Of::StateRow,
        record: STATE,
        from: 20,
        bytes: &[0],
        at: 20,
    },
];

/// Groups that are wrong in one place.
pub(super) const SPOILED_GROUPS: &[Spoiled] = &[
    // No bytes, 201 bytes, bytes that are cut, a byte behind the record.
    Spoiled {
        of: Of::Group,
        record: GROUP,
        from: 2,
        bytes: &[0],
        at: 1,
    },
    Spoiled {
        of: Of::Group,
        record: GROUP,
        from: 2,
        bytes: &[201],
        at: 1,
    },
    Spoiled {
        of: Of::Group,
        record: GROUP,
        from: 2,
        bytes: &[200],
        at: 3,
    },
    Spoiled {
        of: Of::Group,
        record: GROUP,
        from: 4,
        bytes: &[0],
        at: 4,
    },
];

#[test]
fn nothing_is_no_row(rt: HostRuntime) {
    assert!(rt; place_in(rt.alloc(), Of::MemberRow, &[]) == Some(0));
    assert!(rt; place_in(rt.alloc(), Of::CalendarRow, &CALENDAR[..11]) == Some(11));
    assert!(rt; place_in(rt.alloc(), Of::ZoneRow, &ZONE[..17]) == Some(14));
}
