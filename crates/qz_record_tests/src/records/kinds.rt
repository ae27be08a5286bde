//! Records of the kinds of triggers.
use super::{Of, Spoiled, is_again};
use std::alloc::{AllocError, Global};
use std::test::*;

/// AddTrigger as `ADD_TRIGGER` of 0 30 8 ? * MON-FRI in UTC.
const ADD_CRON: &[u8; 109] = b"\x02\
    \x00\x00\x01\x8c\xc2\x51\xf4\x00\
    \x00\
    \x00\x00\x00\x00\
    \x02\
    \x00\x01\
    \x67\
    \x00\x01\
    \x74\
    \x00\x01\
    \x67\
    \x00\x01\
    \x6e\
    \xff\xff\xff\xff\
    \x01\
    \x00\x01\
    \x68\
    \x01\
    \x00\x00\x00\x00\x00\x00\x00\x01\
    \x00\x00\x00\x00\x40\x00\x00\x00\
    \x00\x00\x01\x00\
    \x00\
    \x0f\xff\
    \x01\x3e\
    \xff\xff\xff\xff\xff\xff\xff\xff\
    \xff\xff\xff\xff\xff\xff\xff\xff\
    \x00\x00\x00\x00\x00\x00\x00\x03\
    \x00\x00\x00\x00\x00\x00\x00\x00\
    \x00\x03\
    \x55\x54\x43\
    \x00\
    \x00\x00\x01\x8c\xc2\x51\xf4\x00\
    \x00\
    \x01";

/// The same of each month in UTC, with the hour of the day kept and no day skipped.
const ADD_INTERVAL: &[u8; 59] = b"\x02\
    \x00\x00\x01\x8c\xc2\x51\xf4\x00\
    \x00\
    \x00\x00\x00\x00\
    \x02\
    \x00\x01\
    \x67\
    \x00\x01\
    \x74\
    \x00\x01\
    \x67\
    \x00\x01\
    \x6e\
    \xff\xff\xff\xff\
    \x01\
    \x00\x01\
    \x68\
    \x02\
    \x05\
    \x00\x00\x00\x01\
    \x00\x03\
    \x55\x54\x43\
    \x01\
    \x00\
    \x00\
    \x00\x00\x01\x8c\xc2\x51\xf4\x00\
    \x00\
    \x01";

/// The same of every 72 minutes from 8:00 to 17:00 of all days in UTC.
const ADD_DAILY: &[u8; 66] = b"\x02\
    \x00\x00\x01\x8c\xc2\x51\xf4\x00\
    \x00\
    \x00\x00\x00\x00\
    \x02\
    \x00\x01\
    \x67\
    \x00\x01\
    \x74\
    \x00\x01\
    \x67\
    \x00\x01\
    \x6e\
    \xff\xff\xff\xff\
    \x01\
    \x00\x01\
    \x68\
    \x03\
    \x01\
    \x00\x00\x00\x48\
    \x00\x00\x70\x80\
    \x00\x00\xef\x10\
    \x7f\
    \x00\x03\
    \x55\x54\x43\
    \x00\
    \x00\x00\x01\x8c\xc2\x51\xf4\x00\
    \x00\
    \x01";

/// Other days of the month and of the week in `ADD_CRON`.
const DAYS: &[(&[u8], &[u8])] = &[
    (&[1, 0x7f, 0xff, 0xff, 0xff], &[0]),
    (&[2, 30], &[0]),
    (&[3], &[0]),
    (&[4, 31], &[0]),
    (&[0], &[2, 7]),
    (&[0], &[3, 6, 5]),
];

fn with_days(alloc: Global, month: &[u8], week: &[u8]) -> Result<Vec<u8>, AllocError> {
    let record: &[u8] = ADD_CRON;
    let mut bytes = Vec::from_slice(alloc, record)?;
    bytes.truncate(56);
    bytes.extend_from_slice(month)?;
    bytes.extend_from_slice(&[0x0f, 0xff])?;
    bytes.extend_from_slice(week)?;
    if let Some(rest) = record.get(61..) {
        bytes.extend_from_slice(rest)?;
    }
    Ok(bytes)
}

pub(super) const SAMPLES: &[(Of, &[u8])] = &[
    (Of::Entry, ADD_CRON),
    (Of::Entry, ADD_INTERVAL),
    (Of::Entry, ADD_DAILY),
];

fn days_are_again(alloc: Global, month: &[u8], week: &[u8]) -> bool {
    match with_days(alloc, month, week) {
        Ok(record) => is_again(alloc, Of::Entry, &record),
        Err(AllocError) => false,
    }
}

#[test]
fn days_both_ways(rt: HostRuntime) {
    for (month, week) in DAYS {
        assert!(rt;
            days_are_again(rt.alloc(), month, week),
            "{month:?} {week:?}"
        );
    }
}

fn unit_is_again(alloc: Global, unit: u8) -> bool {
    let mut record = *ADD_INTERVAL;
    record[36] = unit;
    is_again(alloc, Of::Entry, &record)
}

fn flags_are_again(alloc: Global, preserve: u8, skip: u8) -> bool {
    let mut record = *ADD_INTERVAL;
    record[46] = preserve;
    record[47] = skip;
    is_again(alloc, Of::Entry, &record)
}

#[test]
fn flags_both_ways(rt: HostRuntime) {
    for (preserve, skip) in [(0, 0), (0, 1), (1, 0), (1, 1)] {
        assert!(rt;
            flags_are_again(rt.alloc(), preserve, skip),
            "{preserve} {skip}"
        );
    }
}

#[test]
fn units_both_ways(rt: HostRuntime) {
    for unit in 0..7 {
        assert!(rt; unit_is_again(rt.alloc(), unit), "unit {unit}");
    }
}

pub(super) const SPOILED_KINDS: &[Spoiled] = &[
    // No second, one beyond 59, an hour beyond 23, a form of days that isn't there, a month beyond 12.
    Spoiled {
        of: Of::Entry,
        record: ADD_CRON,
        from: 43,
        bytes: &[0],
        at: 36,
    },
    Spoiled {
        of: Of::Entry,
        record: ADD_CRON,
        from: 36,
        bytes: &[0x10],
        at: 36,
    },
    Spoiled {
        of: Of::Entry,
        record: ADD_CRON,
        from: 52,
        bytes: &[1],
        at: 52,
    },
    Spoiled {
        of: Of::Entry,
        record: ADD_CRON,
        from: 56,
        bytes: &[5],
        at: 56,
    },
    Spoiled {
        of: Of::Entry,
        record: ADD_CRON,
        from: 57,
        bytes: &[0x10],
        at: 57,
    },
    // Days of the month and of the week, neither of them, an eighth day of the week, the sixth Friday.
    Spoiled {
        of: Of::Entry,
        record: ADD_CRON,
        from: 56,
        bytes: &[3],
        at: 59,
    },
    Spoiled {
        of: Of::Entry,
        record: ADD_CRON,
        from: 59,
        bytes: &[0],
        at: 59,
    },
    Spoiled {
        of: Of::Entry,
        record: ADD_CRON,
        from: 60,
        bytes: &[0x80],
        at: 60,
    },
    Spoiled {
        of: Of::Entry,
        record: ADD_CRON,
        from: 59,
        bytes: &[3, 6, 6],
        at: 61,
    },
    // A year beyond the last one, no year, a zone without a name, no misfire instruction.
    Spoiled {
        of: Of::Entry,
        record: ADD_CRON,
        from: 88,
        bytes: &[0x40],
        at: 85,
    },
    Spoiled {
        of: Of::Entry,
        record: ADD_CRON,
        from: 61,
        bytes: &[0; 24],
        at: 85,
    },
    Spoiled {
        of: Of::Entry,
        record: ADD_CRON,
        from: 93,
        bytes: &[0, 0],
        at: 93,
    },
    Spoiled {
        of: Of::Entry,
        record: ADD_CRON,
        from: 98,
        bytes: &[3],
        at: 98,
    },
    // A unit that isn't there, no unit, too many of them.
    Spoiled {
        of: Of::Entry,
        record: ADD_INTERVAL,
        from: 36,
        bytes: &[7],
        at: 36,
    },
    Spoiled {
        of: Of::Entry,
        record: ADD_INTERVAL,
        from: 40,
        bytes: &[0],
        at: 37,
    },
    Spoiled {
        of: Of::Entry,
        record: ADD_INTERVAL,
        from: 37,
        bytes: &[0x80],
        at: 37,
    },
    // Flags that are none.
    Spoiled {
        of: Of::Entry,
        record: ADD_INTERVAL,
        from: 46,
        bytes: &[2],
        at: 46,
    },
    Spoiled {
        of: Of::Entry,
        record: ADD_INTERVAL,
        from: 47,
        bytes: &[0xff],
        at: 47,
    },
    // A unit of days, no minute, 72 hours, a first second beyond the day, a last one before it and beyond the day.
    Spoiled {
        of: Of::Entry,
        record: ADD_DAILY,
        from: 36,
        bytes: &[3],
        at: 36,
    },
    Spoiled {
        of: Of::Entry,
        record: ADD_DAILY,
        from: 40,
        bytes: &[0],
        at: 37,
    },
    Spoiled {
        of: Of::Entry,
        record: ADD_DAILY,
        from: 36,
        bytes: &[2],
        at: 37,
    },
    Spoiled {
        of: Of::Entry,
        record: ADD_DAILY,
        from: 41,
        bytes: &[0, 1, 0x51, 0x80],
        at: 41,
    },
    Spoiled {
        of: Of::Entry,
        record: ADD_DAILY,
        from: 45,
        bytes: &[0, 0, 0x70, 0x7f],
        at: 45,
    },
    Spoiled {
        of: Of::Entry,
        record: ADD_DAILY,
        from: 45,
        bytes: &[0, 1, 0x51, 0x80],
        at: 45,
    },
    // No day, and an eighth one.
    Spoiled {
        of: Of::Entry,
        record: ADD_DAILY,
        from: 49,
        bytes: &[0],
        at: 49,
    },
    Spoiled {
        of: Of::Entry,
        record: ADD_DAILY,
        from: 49,
        bytes: &[0x80],
        at: 49,
    },
];
