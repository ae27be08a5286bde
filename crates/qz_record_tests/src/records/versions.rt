//! Records of version one, and what differs in those of version two.
use super::{Of, Spoiled, again, is_again, place_in};
use qz_codec::get_state;
use qz_types::StateEntry;
use std::alloc::{AllocError, Global};
use std::test::*;

/// A record's bytes after its version, in version one and in version two.
struct Both {
    of: Of,
    one: &'static [u8],
    two: &'static [u8],
}

fn in_version(alloc: Global, version: u8, bytes: &[u8]) -> Result<Vec<u8>, AllocError> {
    let mut record = Vec::new(alloc);
    record.push(version)?;
    record.extend_from_slice(bytes)?;
    Ok(record)
}

// Whether the record of version one is read, and written in version two.
fn is_upgraded(alloc: Global, both: &Both) -> Result<bool, AllocError> {
    let one = in_version(alloc, 1, both.one)?;
    let two = in_version(alloc, 2, both.two)?;
    Ok(match again(alloc, both.of, &one) {
        Some(written) => written.as_slice() == two.as_slice(),
        None => false,
    })
}

/// AddTrigger of g/t for g/t, each 2 days in UTC. Only version two has the flags, which are true in version one.
const INTERVAL: Both = Both {
    of: Of::Entry,
    one: b"\x00\x00\x00\x00\x00\x00\x00\x07\x00\x00\x00\x00\x00\x02\x00\x01g\x00\x01t\x00\x01g\x00\x01t\x00\x00\x00\x05\x00\x02\x03\x00\x00\x00\x02\x00\x03UTC\x00\x00\x00\x00\x00\x00\x00\x00\x00\x00\x00",
    two: b"\x00\x00\x00\x00\x00\x00\x00\x07\x00\x00\x00\x00\x00\x02\x00\x01g\x00\x01t\x00\x01g\x00\x01t\x00\x00\x00\x05\x00\x02\x03\x00\x00\x00\x02\x00\x03UTC\x01\x01\x00\x00\x00\x00\x00\x00\x00\x00\x00\x00\x00",
};

const BOTH: &[Both] = &[
    INTERVAL,
    // Leave of the member A of epoch 1, at the least i64.
    Both {
        of: Of::Entry,
        one: b"\x80\x00\x00\x00\x00\x00\x00\x00\x01\x00\x01A\x00\x00\x00\x00\x00\x00\x00\x01\x00\x00\x00\x00\x0f",
        two: b"\x80\x00\x00\x00\x00\x00\x00\x00\x01\x00\x01A\x00\x00\x00\x00\x00\x00\x00\x01\x00\x00\x00\x00\x0f",
    },
    // A calendar without 2099-12-31.
    Both {
        of: Of::CalendarRow,
        one: b"\x00\x01c\x00\x00\x03UTC\x01\x00\x01\x01\x40\x4c\xff",
        two: b"\x00\x01c\x00\x00\x03UTC\x01\x00\x01\x01\x40\x4c\xff",
    },
    // A zone whose stretch begins at the last moment of version one.
    Both {
        of: Of::ZoneRow,
        one: b"\x00\x01z\x00\x01\x00\x00\x03\xbb\x2c\xc3\xd7\xff\x00\x00\x00\x00",
        two: b"\x00\x01z\x00\x01\x00\x00\x03\xbb\x2c\xc3\xd7\xff\x00\x00\x00\x00",
    },
    // A check-in of A at the last moment of version one, one after it and one before 1970, which are clamped.
    Both {
        of: Of::StateEntry,
        one: b"\x00\x00\x03\xbb\x2c\xc3\xd7\xff\x00\x00\x00\x02\x00\x00\x01A\x00\x00\x00\x00\x00\x00\x1d\x4c",
        two: b"\x00\x00\x03\xbb\x2c\xc3\xd7\xff\x00\x00\x00\x02\x00\x00\x01A\x00\x00\x00\x00\x00\x00\x1d\x4c",
    },
    Both {
        of: Of::StateEntry,
        one: b"\x00\x00\x03\xbb\x2c\xc3\xd8\x00\x00\x00\x00\x02\x00\x00\x01A\x00\x00\x00\x00\x00\x00\x1d\x4c",
        two: b"\x00\x00\x03\xbb\x2c\xc3\xd7\xff\x00\x00\x00\x02\x00\x00\x01A\x00\x00\x00\x00\x00\x00\x1d\x4c",
    },
    Both {
        of: Of::StateEntry,
        one: b"\xff\xff\xff\xff\xff\xff\xff\xff\x00\x00\x00\x02\x01\x00\x01A\x80\x00\x00\x00\x00\x00\x00\x00",
        two: b"\x00\x00\x00\x00\x00\x00\x00\x00\x00\x00\x00\x02\x01\x00\x01A\x80\x00\x00\x00\x00\x00\x00\x00",
    },
];

#[test]
fn version_one_is_read_and_version_two_written(rt: HostRuntime) {
    for both in BOTH {
        let alloc = rt.alloc();
        assert!(rt;
            is_upgraded(alloc, both) == Ok(true),
            "{:?} {:?}",
            both.of,
            both.one
        );
    }
}

// Whether the bytes of version two are read and written as they are. Of version one they are wrong at this place.
fn is_later(alloc: Global, of: Of, bytes: &[u8], at: u32) -> Result<bool, AllocError> {
    let one = in_version(alloc, 1, bytes)?;
    let two = in_version(alloc, 2, bytes)?;
    Ok(is_again(alloc, of, &two) && place_in(alloc, of, &one) == Some(at))
}

/// What version two alone has, and where version one is wrong.
const LATER: &[(Of, &[u8], u32)] = &[
    // A date of 2100, one of 2199.
    (
        Of::CalendarRow,
        b"\x00\x01c\x00\x00\x03UTC\x01\x00\x01\x01\x40\x6f\xa5",
        13,
    ),
    (
        Of::CalendarRow,
        b"\x00\x01c\x00\x00\x03UTC\x01\x00\x01\x01\x4f\x8f\x3f",
        13,
    ),
    // A stretch that begins in 2100, and at the last moment of all.
    (
        Of::ZoneRow,
        b"\x00\x01z\x00\x01\x00\x00\x03\xbb\x2c\xc3\xd8\x00\x00\x00\x00\x00",
        6,
    ),
    (
        Of::ZoneRow,
        b"\x00\x01z\x00\x01\x00\x00\x06\x99\xe9\x91\xa7\xff\x00\x00\x00\x00",
        6,
    ),
    // The four commands.
    (
        Of::Entry,
        b"\x00\x00\x00\x00\x00\x00\x00\x07\x00\x00\x00\x00\x00\x16",
        14,
    ),
    (
        Of::Entry,
        b"\x00\x00\x00\x00\x00\x00\x00\x07\x00\x00\x00\x00\x00\x17\x00\x01g\x00\x01t",
        14,
    ),
    (
        Of::Entry,
        b"\x00\x00\x00\x00\x00\x00\x00\x07\x00\x00\x00\x00\x00\x18\x00\x01g",
        14,
    ),
    (
        Of::Entry,
        b"\x00\x00\x00\x00\x00\x00\x00\x07\x00\x00\x00\x00\x00\x19\x00\x01g",
        14,
    ),
];

#[test]
fn version_two_has_more(rt: HostRuntime) {
    for (of, bytes, at) in LATER {
        let alloc = rt.alloc();
        assert!(rt;
            is_later(alloc, *of, bytes, *at) == Ok(true),
            "{of:?} {bytes:?}"
        );
    }
}

/// A calendar of the times of a cron text, of 2097 and of 2098 to 2199: the words of its years follow.
const YEARS: &[u8; 68] = b"\x02\x00\x01c\x00\x00\x03UTC\x05\
    \x00\x00\x00\x00\x00\x00\x00\x01\
    \x00\x00\x00\x00\x00\x00\x00\x01\
    \x00\x00\x00\x01\
    \x00\
    \x0f\xff\
    \x01\x3e\
    \x00\x00\x00\x00\x00\x00\x00\x00\
    \x80\x00\x00\x00\x00\x00\x00\x00\
    \xff\xff\xff\xff\xff\xff\xff\xff\
    \x00\x00\x00\x3f\xff\xff\xff\xff";

/// Years and a reading that version one doesn't have.
pub(super) const SPOILED: &[Spoiled] = &[
    // In version one the third word is wrong, in version two a year beyond 2199 and none at all.
    Spoiled {
        of: Of::CalendarRow,
        record: YEARS,
        from: 0,
        bytes: &[1],
        at: 52,
    },
    Spoiled {
        of: Of::CalendarRow,
        record: YEARS,
        from: 60,
        bytes: &[0, 0, 0, 0x40],
        at: 60,
    },
    Spoiled {
        of: Of::CalendarRow,
        record: YEARS,
        from: 36,
        bytes: &[0; 32],
        at: 60,
    },
];

#[test]
fn years_to_2199_both_ways(rt: HostRuntime) {
    assert!(rt; is_again(rt.alloc(), Of::CalendarRow, YEARS));
}

/// CheckIn of A in 2150, of version two.
const LATE: &[u8; 25] =
    b"\x02\x00\x00\x05\x2b\x06\x55\x38\x00\x00\x00\x00\x02\x00\x00\x01A\x00\x00\x00\x00\x00\x00\x1d\x4c";

fn reading_of(alloc: Global, record: &[u8]) -> Option<i64> {
    let entry = get_state(alloc, record).ok()?;
    let StateEntry { at, .. } = entry;
    Some(at)
}

#[test]
fn readings_of_version_one_are_clamped(rt: HostRuntime) {
    let alloc = rt.alloc();
    let mut one = *LATE;
    one[0] = 1;
    assert!(rt; reading_of(alloc, LATE) == Some(5682347980800));
    assert!(rt; reading_of(alloc, &one) == Some(4102444799999));
}
