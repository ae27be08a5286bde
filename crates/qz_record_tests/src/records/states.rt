//! Records of state entries.
use super::{Of, Spoiled};
use qz_codec::get_state;
use qz_types::{StateCommand, StateEntry};
use std::alloc::Global;
use std::test::*;

/// CheckIn of A, which means to check in again after 7500 ms, from seat 2 at 2024-01-01T00:00:00Z.
pub(super) const CHECK_IN: &[u8; 25] = b"\x02\
    \x00\x00\x01\x8c\xc2\x51\xf4\x00\
    \x00\x00\x00\x02\
    \x00\
    \x00\x01\
    \x41\
    \x00\x00\x00\x00\x00\x00\x1d\x4c";

/// Forget of A, which checked in last at -1 ms, from seat 0 at 2024-01-01T00:00:00Z.
const FORGET: &[u8; 25] = b"\x02\
    \x00\x00\x01\x8c\xc2\x51\xf4\x00\
    \x00\x00\x00\x00\
    \x01\
    \x00\x01\
    \x41\
    \xff\xff\xff\xff\xff\xff\xff\xff";

/// The places that are wrong in `CHECK_IN` where only so many bytes of it are there.
pub(super) const FIELDS: &[u32] = &[
    0, 1, 1, 1, 1, 1, 1, 1, 1, 9, 9, 9, 9, 13, 14, 14, 16, 17, 17, 17, 17, 17, 17, 17, 17,
];

/// CheckIn of A with the greatest interval: a day.
const LONGEST: &[u8; 25] = b"\x02\
    \x00\x00\x01\x8c\xc2\x51\xf4\x00\
    \x00\x00\x00\x02\
    \x00\
    \x00\x01\
    \x41\
    \x00\x00\x00\x00\x05\x26\x5c\x00";

pub(super) const SAMPLES: &[(Of, &[u8])] = &[
    (Of::StateEntry, CHECK_IN),
    (Of::StateEntry, FORGET),
    (Of::StateEntry, LONGEST),
];

fn is_check_in(entry: &StateEntry) -> bool {
    entry.at == 1704067200000
        && entry.seat == 2
        && matches!(&entry.command, StateCommand::CheckIn { node, interval: 7500 } if node.as_str() == "A")
}

fn is_forget(entry: &StateEntry) -> bool {
    matches!(&entry.command, StateCommand::Forget { node, last: -1 } if node.as_str() == "A")
}

fn reads_check_in(alloc: Global) -> Option<bool> {
    let entry = get_state(alloc, CHECK_IN).ok()?;
    let is_right = is_check_in(&entry);
    drop(entry);
    Some(is_right)
}

fn reads_forget(alloc: Global) -> Option<bool> {
    let entry = get_state(alloc, FORGET).ok()?;
    let is_right = is_forget(&entry);
    drop(entry);
    Some(is_right)
}

#[test]
fn state_entries_are_read_with_their_values(rt: HostRuntime) {
    assert!(rt; reads_check_in(rt.alloc()) == Some(true));
    assert!(rt; reads_forget(rt.alloc()) == Some(true));
}

/// Records that are wrong in one place.
pub(super) const SPOILED: &[Spoiled] = &[
    // Another version, a command that isn't there, a node without bytes.
    Spoiled {
        of: Of::StateEntry,
        record: CHECK_IN,
        from: 0,
        bytes: &[3],
        at: 0,
    },
    Spoiled {
        of: Of::StateEntry,
        record: CHECK_IN,
        from: 13,
        bytes: &[2],
        at: 13,
    },
    Spoiled {
        of: Of::StateEntry,
        record: CHECK_IN,
        from: 14,
        bytes: &[0, 0],
        at: 14,
    },
    // A node of 121 bytes, one that is cut, one that isn't UTF-8.
    Spoiled {
        of: Of::StateEntry,
        record: CHECK_IN,
        from: 14,
        bytes: &[0, 121],
        at: 14,
    },
    Spoiled {
        of: Of::StateEntry,
        record: CHECK_IN,
        from: 14,
        bytes: &[0, 120],
        at: 16,
    },
    Spoiled {
        of: Of::StateEntry,
        record: FORGET,
        from: 16,
        bytes: &[0xff],
        at: 16,
    },
    // Intervals of 0, of a day and 1 ms, and of -1 ms.
    Spoiled {
        of: Of::StateEntry,
        record: CHECK_IN,
        from: 17,
        bytes: &[0, 0, 0, 0, 0, 0, 0, 0],
        at: 17,
    },
    Spoiled {
        of: Of::StateEntry,
        record: CHECK_IN,
        from: 21,
        bytes: &[5, 0x26, 0x5c, 1],
        at: 17,
    },
    Spoiled {
        of: Of::StateEntry,
        record: CHECK_IN,
        from: 17,
        bytes: &[0xff, 0xff, 0xff, 0xff, 0xff, 0xff, 0xff, 0xff],
        at: 17,
    },
    // A byte behind the record.
    Spoiled {
        of: Of::StateEntry,
        record: CHECK_IN,
        from: 25,
        bytes: &[0],
        at: 25,
    },
    Spoiled {
        of: Of::StateEntry,
        record: FORGET,
        from: 25,
        bytes: &[1],
        at: 25,
    },
];
