mod calendars;
mod commands;
mod each_byte;
mod kinds;
mod limits;
mod rows;
mod states;
mod versions;

use qz_codec::*;
use qz_types::{
    Actor, CalendarRow, Command, Entry, FiredRow, JobRow, List, MemberRow, StateRow, Text,
    TriggerRow, ZoneRow,
};
use std::alloc::{AllocError, Global};
use std::process::Abort;
use std::test::*;

/// What a record is of.
#[derive(Clone, Copy, Debug)]
enum Of {
    Entry,
    StateEntry,
    JobRow,
    TriggerRow,
    FiredRow,
    MemberRow,
    StateRow,
    CalendarRow,
    ZoneRow,
    Group,
}

fn place(fault: Option<ReadError>) -> Option<u32> {
    match fault {
        Some(ReadError::BadRecord { at }) => Some(at),
        Some(ReadError::NoMemory) | None => None,
    }
}

fn row_place<R: Row>(alloc: Global, bytes: &[u8]) -> Option<u32> {
    place(get_row::<R>(alloc, bytes).err())
}

// The place at which bytes are no record of this type.
fn place_in(alloc: Global, of: Of, bytes: &[u8]) -> Option<u32> {
    match of {
        Of::Entry => place(get_command(alloc, bytes).err()),
        Of::StateEntry => place(get_state(alloc, bytes).err()),
        Of::JobRow => row_place::<JobRow>(alloc, bytes),
        Of::TriggerRow => row_place::<TriggerRow>(alloc, bytes),
        Of::FiredRow => row_place::<FiredRow>(alloc, bytes),
        Of::MemberRow => row_place::<MemberRow>(alloc, bytes),
        Of::StateRow => row_place::<StateRow>(alloc, bytes),
        Of::CalendarRow => row_place::<CalendarRow>(alloc, bytes),
        Of::ZoneRow => row_place::<ZoneRow>(alloc, bytes),
        Of::Group => row_place::<Text>(alloc, bytes),
    }
}

fn entry_again(alloc: Global, record: &[u8]) -> Option<List<u8>> {
    let entry = get_command(alloc, record).ok()?;
    let bytes = put_command(alloc, &entry).ok();
    drop(entry);
    bytes
}

fn state_entry_again(alloc: Global, record: &[u8]) -> Option<List<u8>> {
    let entry = get_state(alloc, record).ok()?;
    let bytes = put_state(alloc, &entry).ok();
    drop(entry);
    bytes
}

fn row_again<R: Row>(alloc: Global, record: &[u8]) -> Option<List<u8>>
    requires { (row : R) → R.can_put row }
{
    let row = get_row::<R>(alloc, record).ok()?;
    let bytes = put_row(alloc, &row).ok();
    drop(row);
    bytes
}

// A record, read and written again. Groups are left out, since not every text is one.
fn again(alloc: Global, of: Of, record: &[u8]) -> Option<List<u8>> {
    match of {
        Of::Entry => entry_again(alloc, record),
        Of::StateEntry => state_entry_again(alloc, record),
        Of::JobRow => row_again::<JobRow>(alloc, record),
        Of::TriggerRow => row_again::<TriggerRow>(alloc, record),
        Of::FiredRow => row_again::<FiredRow>(alloc, record),
        Of::MemberRow => row_again::<MemberRow>(alloc, record),
        Of::StateRow => row_again::<StateRow>(alloc, record),
        Of::CalendarRow => row_again::<CalendarRow>(alloc, record),
        Of::ZoneRow => row_again::<ZoneRow>(alloc, record),
        Of::Group => None,
    }
}

/// Fire of entry 1 by the member A of epoch 1, at 2024-01-01T00:00:00Z.
const FIRE: &[u8; 34] = b"\x02\
    \x00\x00\x01\x8c\xc2\x51\xf4\x00\
    \x01\
    \x00\x01\
    \x41\
    \x00\x00\x00\x00\x00\x00\x00\x01\
    \x00\x00\x00\x00\
    \x12\
    \x00\x00\x00\x00\x00\x00\x00\x01";

/// The places that are wrong in `FIRE` where only so many bytes of it are there.
const FIELDS: &[u32] = &[
    0, 1, 1, 1, 1, 1, 1, 1, 1, 9, 10, 10, 12, 13, 13, 13, 13, 13, 13, 13, 13, 21, 21, 21, 21, 25,
    26, 26, 26, 26, 26, 26, 26, 26,
];

/// AddJob of g/n of class c, which is durable and requests recovery, with the payload {}.
const ADD_JOB: &[u8; 32] = b"\x02\
    \x00\x00\x01\x8c\xc2\x51\xf4\x00\
    \x00\
    \x00\x00\x00\x00\
    \x00\
    \x00\x01\
    \x67\
    \x00\x01\
    \x6e\
    \x00\x01\
    \x63\
    \x01\
    \x00\
    \x01\
    \x00\x02\
    \x7b\x7d\
    \x00";

/// AddTrigger of g/t for g/n, of priority -1 and on the calendar h: each 1000 ms without end, misfires ignored.
const ADD_TRIGGER: &[u8; 63] = b"\x02\
    \x00\x00\x01\x8c\xc2\x51\xf4\x00\
    \x00\
    \x00\x00\x00\x00\
    \x02\
    \x00\x01\
    \x67\
    \x00\x01\
    \x74\
    \x00\x01\
    \x67\
    \x00\x01\
    \x6e\
    \xff\xff\xff\xff\
    \x01\
    \x00\x01\
    \x68\
    \x00\
    \x00\x00\x00\x00\x00\x00\x03\xe8\
    \xff\xff\xff\xff\xff\xff\xff\xff\
    \xff\
    \x00\x00\x01\x8c\xc2\x51\xf4\x00\
    \x00\
    \x01";

/// Join of A.
const JOIN: &[u8; 18] = b"\x02\
    \x00\x00\x01\x8c\xc2\x51\xf4\x00\
    \x00\
    \x00\x00\x00\x00\
    \x0e\
    \x00\x01\
    \x41";

/// Acquire of one trigger that is due by 1000 ms, with a window of 5 ms.
const ACQUIRE: &[u8; 46] = b"\x02\
    \x00\x00\x01\x8c\xc2\x51\xf4\x00\
    \x01\
    \x00\x01\
    \x41\
    \x00\x00\x00\x00\x00\x00\x00\x01\
    \x00\x00\x00\x00\
    \x10\
    \x00\x00\x00\x00\x00\x00\x03\xe8\
    \x00\x00\x00\x00\x00\x00\x00\x05\
    \x00\x00\x00\x01";

/// Complete of entry 1 with SetAllJobTriggersError.
const COMPLETE: &[u8; 35] = b"\x02\
    \x00\x00\x01\x8c\xc2\x51\xf4\x00\
    \x01\
    \x00\x01\
    \x41\
    \x00\x00\x00\x00\x00\x00\x00\x01\
    \x00\x00\x00\x00\
    \x13\
    \x00\x00\x00\x00\x00\x00\x00\x01\
    \x06";

/// Fire of entry 1 by a client, which is no record.
const CLIENT_FIRE: &[u8; 23] = b"\x02\
    \x00\x00\x01\x8c\xc2\x51\xf4\x00\
    \x00\
    \x00\x00\x00\x00\
    \x12\
    \x00\x00\x00\x00\x00\x00\x00\x01";

fn is_worked_example(entry: &Entry) -> bool {
    entry.at == 1704067200000
        && entry.seat == 0
        && matches!(&entry.actor, Actor::Node(member) if member.epoch == 1 && member.node.as_str() == "A")
        && matches!(entry.command, Command::Fire { entry: 1 })
}

fn reads_worked_example(alloc: Global) -> bool {
    let read = get_command(alloc, FIRE);
    let is_right = matches!(&read, Ok(entry) if is_worked_example(entry));
    drop(read);
    is_right
}

#[test]
fn the_example_of_the_page_is_read(rt: HostRuntime) {
    assert!(rt; reads_worked_example(rt.alloc()));
}

/// Records of the six commands that are built.
const SIX: &[(Of, &[u8])] = &[
    (Of::Entry, FIRE),
    (Of::Entry, ADD_JOB),
    (Of::Entry, ADD_TRIGGER),
    (Of::Entry, JOIN),
    (Of::Entry, ACQUIRE),
    (Of::Entry, COMPLETE),
];

// Whether a record is read, and written as before.
fn is_again(alloc: Global, of: Of, record: &[u8]) -> bool {
    match again(alloc, of, record) {
        Some(bytes) => bytes.as_slice() == record,
        None => false,
    }
}

fn go_both_ways(rt: &impl Abort, alloc: Global, samples: &[(Of, &[u8])]) {
    for (of, record) in samples {
        assert!(rt; is_again(alloc, *of, record), "{of:?} {record:?}");
    }
}

#[test]
fn records_are_written_as_they_were_read(rt: HostRuntime) {
    go_both_ways(&rt, rt.alloc(), SIX);
    go_both_ways(&rt, rt.alloc(), kinds::SAMPLES);
    go_both_ways(&rt, rt.alloc(), states::SAMPLES);
    go_both_ways(&rt, rt.alloc(), rows::SAMPLES);
    go_both_ways(&rt, rt.alloc(), calendars::SAMPLES);
}

// A record that is cut is wrong at the place of the field that is missing.
fn are_cut_at(rt: &impl Abort, alloc: Global, of: Of, record: &[u8], places: &[u32]) {
    assert!(rt; record.len() == places.len());
    for (size, place) in places.iter().enumerate() {
        let cut = record.get(..size).unwrap_or(record);
        assert!(rt;
            place_in(alloc, of, cut) == Some(*place),
            "{of:?} cut to {size} bytes"
        );
    }
}

#[test]
fn a_cut_record_is_wrong_at_the_missing_field(rt: HostRuntime) {
    are_cut_at(&rt, rt.alloc(), Of::Entry, FIRE, FIELDS);
    are_cut_at(
        &rt,
        rt.alloc(),
        Of::StateEntry,
        states::CHECK_IN,
        states::FIELDS,
    );
}

/// A record whose bytes from `from` on are these, and the place at which it is wrong then.
#[derive(Debug, Drop)]
struct Spoiled {
    of: Of,
    record: &'static [u8],
    from: usize,
    bytes: &'static [u8],
    at: u32,
}

/// The bytes of a spoiled record.
fn spoil(alloc: Global, spoiled: &Spoiled) -> Result<Vec<u8>, AllocError> {
    let mut bytes = Vec::from_slice(alloc, spoiled.record)?;
    bytes.truncate(spoiled.from);
    bytes.extend_from_slice(spoiled.bytes)?;
    if let Some(rest) = spoiled.record.get(bytes.len()..) {
        bytes.extend_from_slice(rest)?;
    }
    Ok(bytes)
}

const SPOILED: &[Spoiled] = &[
    // Another version, a flag that is none, a name without bytes, one of 121 bytes, one that isn't UTF-8.
    Spoiled {
        of: Of::Entry,
        record: FIRE,
        from: 0,
        bytes: &[3],
        at: 0,
    },
    Spoiled {
        of: Of::Entry,
        record: FIRE,
        from: 9,
        bytes: &[2],
        at: 9,
    },
    Spoiled {
        of: Of::Entry,
        record: FIRE,
        from: 10,
        bytes: &[0, 0],
        at: 10,
    },
    Spoiled {
        of: Of::Entry,
        record: FIRE,
        from: 10,
        bytes: &[0, 121],
        at: 10,
    },
    Spoiled {
        of: Of::Entry,
        record: FIRE,
        from: 12,
        bytes: &[0xff],
        at: 12,
    },
    // Commands of a client by a node, one that isn't there, one of a node by a client.
    Spoiled {
        of: Of::Entry,
        record: FIRE,
        from: 25,
        bytes: &[0x01],
        at: 25,
    },
    Spoiled {
        of: Of::Entry,
        record: FIRE,
        from: 25,
        bytes: &[0xff],
        at: 25,
    },
    Spoiled {
        of: Of::Entry,
        record: FIRE,
        from: 25,
        bytes: &[0x0e],
        at: 25,
    },
    Spoiled {
        of: Of::Entry,
        record: CLIENT_FIRE,
        from: 0,
        bytes: &[2],
        at: 14,
    },
    // A byte behind the record, and a code that isn't there.
    Spoiled {
        of: Of::Entry,
        record: FIRE,
        from: 34,
        bytes: &[0],
        at: 34,
    },
    Spoiled {
        of: Of::Entry,
        record: COMPLETE,
        from: 34,
        bytes: &[7],
        at: 34,
    },
    // A name of 201 bytes, and one that is longer than what is there.
    Spoiled {
        of: Of::Entry,
        record: ADD_JOB,
        from: 15,
        bytes: &[0, 201],
        at: 15,
    },
    Spoiled {
        of: Of::Entry,
        record: ADD_JOB,
        from: 15,
        bytes: &[0, 200],
        at: 17,
    },
    // No kind, an interval of 0 with a count of 5, no misfire instruction, a flag that is none.
    Spoiled {
        of: Of::Entry,
        record: ADD_TRIGGER,
        from: 35,
        bytes: &[4],
        at: 35,
    },
    Spoiled {
        of: Of::Entry,
        record: ADD_TRIGGER,
        from: 42,
        bytes: &[0, 0, 0, 0, 0, 0, 0, 0, 0, 5],
        at: 44,
    },
    Spoiled {
        of: Of::Entry,
        record: ADD_TRIGGER,
        from: 52,
        bytes: &[6],
        at: 52,
    },
    Spoiled {
        of: Of::Entry,
        record: ADD_TRIGGER,
        from: 62,
        bytes: &[2],
        at: 62,
    },
    // An Acquire of no trigger.
    Spoiled {
        of: Of::Entry,
        record: ACQUIRE,
        from: 45,
        bytes: &[0],
        at: 42,
    },
];

fn is_wrong_there(alloc: Global, spoiled: &Spoiled) -> bool {
    match spoil(alloc, spoiled) {
        Ok(bytes) => place_in(alloc, spoiled.of, &bytes) == Some(spoiled.at),
        Err(AllocError) => false,
    }
}

// Each is wrong at its place.
fn are_wrong_there(rt: &impl Abort, alloc: Global, rows: &[Spoiled]) {
    for spoiled in rows {
        assert!(rt; is_wrong_there(alloc, spoiled), "{spoiled:?}");
    }
}

#[test]
fn a_spoiled_record_is_wrong_at_its_place(rt: HostRuntime) {
    let alloc = rt.alloc();
    are_wrong_there(&rt, alloc, SPOILED);
    are_wrong_there(&rt, alloc, kinds::SPOILED_KINDS);
    are_wrong_there(&rt, alloc, states::SPOILED);
    are_wrong_there(&rt, alloc, versions::SPOILED);
    are_wrong_there(&rt, alloc, rows::SPOILED_JOBS);
    are_wrong_there(&rt, alloc, rows::SPOILED_TRIGGERS);
    are_wrong_there(&rt, alloc, rows::SPOILED_FIRED);
    are_wrong_there(&rt, alloc, rows::SPOILED_MEMBERS);
    are_wrong_there(&rt, alloc, rows::SPOILED_STATES);
    are_wrong_there(&rt, alloc, rows::SPOILED_GROUPS);
    are_wrong_there(&rt, alloc, calendars::SPOILED_CALENDARS);
    are_wrong_there(&rt, alloc, calendars::SPOILED_ZONES);
}
