//! Records of each command.
use super::{Of, is_again, place_in};
use qz_codec::{ReadError, get_command};
use qz_types::Entry;
use std::alloc::{AllocError, Global};
use std::test::*;

/// What stands before a client's command: at 2024-01-01T00:00:00Z, from seat 0.
const BY_CLIENT: &[u8; 14] = b"\x02\
    \x00\x00\x01\x8c\xc2\x51\xf4\x00\
    \x00\
    \x00\x00\x00\x00";

/// The same of a node's, by the member A of epoch 1.
const BY_NODE: &[u8; 25] = b"\x02\
    \x00\x00\x01\x8c\xc2\x51\xf4\x00\
    \x01\
    \x00\x01\
    \x41\
    \x00\x00\x00\x00\x00\x00\x00\x01\
    \x00\x00\x00\x00";

/// A command's bytes, what stands before them in its record, and how the command prints.
#[derive(Drop)]
struct Sample {
    before: &'static [u8],
    bytes: &'static [u8],
    printed: &'static str,
}

const SAMPLES: &[Sample] = &[
    Sample {
        before: BY_CLIENT,
        bytes: b"\x01\x00\x01g\x00\x01n",
        printed: "DeleteJob { key: Key { group: \"g\", name: \"n\" } }",
    },
    Sample {
        before: BY_CLIENT,
        bytes: b"\x03\x00\x01g\x00\x01t",
        printed: "DeleteTrigger { key: Key { group: \"g\", name: \"t\" } }",
    },
    Sample {
        before: BY_CLIENT,
        bytes: b"\x04\x00\x01g\x00\x01t",
        printed: "PauseTrigger { key: Key { group: \"g\", name: \"t\" } }",
    },
    Sample {
        before: BY_CLIENT,
        bytes: b"\x05\x00\x01g\x00\x01t",
        printed: "ResumeTrigger { key: Key { group: \"g\", name: \"t\" } }",
    },
    Sample {
        before: BY_CLIENT,
        bytes: b"\x06\x00\x01g",
        printed: "PauseGroup { group: \"g\" }",
    },
    Sample {
        before: BY_CLIENT,
        bytes: b"\x07\x00\x02gh",
        printed: "ResumeGroup { group: \"gh\" }",
    },
    Sample {
        before: BY_CLIENT,
        bytes: b"\x08\x00\x01c\x00\x00\x03UTC\x02\x41\x01",
        printed: "AddCalendar { calendar: CalendarRow { name: \"c\", base: None, zone: \"UTC\", kind: Weekly { days: 65 } }, replace: true }",
    },
    Sample {
        before: BY_CLIENT,
        bytes: b"\x09\x00\x01c",
        printed: "DeleteCalendar { name: \"c\" }",
    },
    Sample {
        before: BY_CLIENT,
        bytes: b"\x0a\x00\x01Z\x00\x01\x00\x00\x00\x00\x00\x00\x03\xe8\xff\xff\xf1\xf0",
        printed: "AddZone { zone: ZoneRow { name: \"Z\", zone: [Stretch { from: 1000, offset: -3600 }] } }",
    },
    Sample {
        before: BY_CLIENT,
        bytes: b"\x0b\x00\x01Z",
        printed: "DeleteZone { name: \"Z\" }",
    },
    Sample {
        before: BY_CLIENT,
        bytes: b"\x0c\x00\x01g\x00\x01n",
        printed: "TriggerNow { job: Key { group: \"g\", name: \"n\" } }",
    },
    Sample {
        before: BY_CLIENT,
        bytes: b"\x0d\x00\x00\x00\x00\x05\x26\x5c\x00",
        printed: "Threshold { ms: 86400000 }",
    },
    Sample {
        before: BY_CLIENT,
        bytes: b"\x16",
        printed: "Upgrade",
    },
    Sample {
        before: BY_CLIENT,
        bytes: b"\x17\x00\x01g\x00\x01t",
        printed: "ResetTrigger { key: Key { group: \"g\", name: \"t\" } }",
    },
    Sample {
        before: BY_CLIENT,
        bytes: b"\x18\x00\x01g",
        printed: "PauseJobGroup { group: \"g\" }",
    },
    Sample {
        before: BY_CLIENT,
        bytes: b"\x19\x00\x02gh",
        printed: "ResumeJobGroup { group: \"gh\" }",
    },
    Sample {
        before: BY_NODE,
        bytes: b"\x0f",
        printed: "Leave",
    },
    Sample {
        before: BY_NODE,
        bytes: b"\x11\x00\x00\x00\x00\x00\x00\x01\x00",
        printed: "Release { entry: 256 }",
    },
    Sample {
        before: BY_NODE,
        bytes: b"\x14",
        printed: "Misfires",
    },
    Sample {
        before: BY_NODE,
        bytes: b"\x15\x00\x01B",
        printed: "Recover { node: \"B\" }",
    },
];

fn joined(alloc: Global, before: &[u8], bytes: &[u8]) -> Result<Vec<u8>, AllocError> {
    let mut record = Vec::from_slice(alloc, before)?;
    record.extend_from_slice(bytes)?;
    Ok(record)
}

fn text_of(alloc: Global, read: &Result<Entry, ReadError>) -> Result<String, AllocError> {
    match read {
        Ok(entry) => format!(in alloc; "{:?}", entry.command),
        Err(fault) => format!(in alloc; "{fault:?}"),
    }
}

// Whether the record is read as what is printed so.
fn prints(alloc: Global, record: &[u8], printed: &str) -> bool {
    let read = get_command(alloc, record);
    let text = text_of(alloc, &read);
    drop(read);
    matches!(text, Ok(text) if text.as_str() == printed)
}

// Whether the record is read as it is printed, and written as before.
fn goes_both_ways(alloc: Global, sample: &Sample) -> bool {
    match joined(alloc, sample.before, sample.bytes) {
        Ok(record) => {
            prints(alloc, &record, sample.printed) && is_again(alloc, Of::Entry, &record)
        }
        Err(AllocError) => false,
    }
}

#[test]
fn each_sample_both_ways(rt: HostRuntime) {
    for sample in SAMPLES {
        assert!(rt; goes_both_ways(rt.alloc(), sample), "{}", sample.printed);
    }
}

// Whether a command of these bytes is wrong at this place.
fn is_wrong_at(alloc: Global, before: &[u8], bytes: &[u8], at: Option<u32>) -> bool {
    match joined(alloc, before, bytes) {
        Ok(record) => place_in(alloc, Of::Entry, &record) == at,
        Err(AllocError) => false,
    }
}

// A record that ends behind its command's place is wrong at the place, or where a field is missing, or not at all.
fn ends_at_its_place(alloc: Global, place: u8) -> bool {
    let by_client = match place {
        22 => None,
        0..=14 | 23..=25 => Some(15),
        _ => Some(14),
    };
    let by_node = match place {
        15 | 20 => None,
        16..=19 | 21 => Some(26),
        _ => Some(25),
    };
    is_wrong_at(alloc, BY_CLIENT, &[place], by_client)
        && is_wrong_at(alloc, BY_NODE, &[place], by_node)
}

#[test]
fn places_of_clients_and_nodes(rt: HostRuntime) {
    for place in 0..=255 {
        assert!(rt; ends_at_its_place(rt.alloc(), place), "place {place}");
    }
}

/// Commands that are wrong, what stands before each, and the place of its fault.
const WRONG: &[(&[u8], &[u8], u32)] = &[
    // A group without bytes, one of 201, no name behind it, a name that is cut, one that isn't UTF-8.
    (BY_CLIENT, b"\x01\x00\x00", 15),
    (BY_CLIENT, b"\x03\x00\xc9", 15),
    (BY_CLIENT, b"\x04\x00\x01g", 18),
    (BY_CLIENT, b"\x05\x00\x01g\x00\x02n", 20),
    (BY_CLIENT, b"\x0c\x00\x01g\x00\x01\xff", 20),
    // A name without bytes, one that is cut, a byte behind one.
    (BY_CLIENT, b"\x06\x00\x00", 15),
    (BY_CLIENT, b"\x09\x00\x02c", 17),
    (BY_CLIENT, b"\x0b\x00\x01Z\x00", 18),
    // A replace that is no flag.
    (BY_CLIENT, b"\x08\x00\x01c\x00\x00\x03UTC\x02\x41\x02", 26),
    // A threshold of 0 ms, one below that, one of more than a day.
    (BY_CLIENT, b"\x0d\x00\x00\x00\x00\x00\x00\x00\x00", 15),
    (BY_CLIENT, b"\x0d\xff\xff\xff\xff\xff\xff\xff\xff", 15),
    (BY_CLIENT, b"\x0d\x00\x00\x00\x00\x05\x26\x5c\x01", 15),
    // Half an entry, a node of 121 bytes, a byte behind Leave.
    (BY_NODE, b"\x11\x00\x00\x00\x00", 26),
    (BY_NODE, b"\x15\x00\x79", 26),
    (BY_NODE, b"\x0f\x00", 26),
];

#[test]
fn wrong_commands(rt: HostRuntime) {
    for (before, bytes, at) in WRONG {
        assert!(rt;
            is_wrong_at(rt.alloc(), before, bytes, Some(*at)),
            "{bytes:?}"
        );
    }
}
