//! Records of calendars and zones.
use super::{Of, Spoiled};
use qz_codec::get_row;
use qz_types::{CalendarKind, CalendarRow, ZoneRow};
use std::alloc::Global;
use std::test::*;

/// The annual calendar c in UTC without 29 February and 31 December, behind the calendar b.
const ANNUAL: &[u8; 20] = b"\x02\
    \x00\x01\x63\
    \x01\x00\x01\x62\
    \x00\x03\x55\x54\x43\
    \x00\
    \x00\x02\
    \x00\xe5\
    \x04\xcf";

/// The calendar c in UTC without 2024-02-29 and 2099-12-31.
const HOLIDAY: &[u8; 21] = b"\x02\
    \x00\x01\x63\
    \x00\
    \x00\x03\x55\x54\x43\
    \x01\
    \x00\x02\
    \x01\x34\xd7\x65\
    \x01\x40\x4c\xff";

/// The calendar c in UTC without Saturdays and Sundays.
const WEEKLY: &[u8; 12] = b"\x02\
    \x00\x01\x63\
    \x00\
    \x00\x03\x55\x54\x43\
    \x02\
    \x41";

/// The calendar c in UTC without the 1st and the 31st of each month.
const MONTHLY: &[u8; 15] = b"\x02\
    \x00\x01\x63\
    \x00\
    \x00\x03\x55\x54\x43\
    \x03\
    \x40\x00\x00\x01";

/// The calendar c in UTC with nothing but the last second of each day.
const DAILY: &[u8; 20] = b"\x02\
    \x00\x01\x63\
    \x00\
    \x00\x03\x55\x54\x43\
    \x04\
    \x05\x26\x58\x18\
    \x05\x26\x5b\xff\
    \x01";

/// The calendar c in UTC without 0 30 8 ? * MON-FRI.
const CRON: &[u8; 68] = b"\x02\
    \x00\x01\x63\
    \x00\
    \x00\x03\x55\x54\x43\
    \x05\
    \x00\x00\x00\x00\x00\x00\x00\x01\
    \x00\x00\x00\x00\x40\x00\x00\x00\
    \x00\x00\x01\x00\
    \x00\
    \x0f\xff\
    \x01\x3e\
    \xff\xff\xff\xff\xff\xff\xff\xff\
    \xff\xff\xff\xff\xff\xff\xff\xff\
    \x00\x00\x00\x00\x00\x00\x00\x03\
    \x00\x00\x00\x00\x00\x00\x00\x00";

/// The zone z of two stretches: 1 hour from 1970-01-01T00:00:00Z on, and -18 hours from 48 hours later on.
const ZONE: &[u8; 30] = b"\x02\
    \x00\x01\x7a\
    \x00\x02\
    \x00\x00\x00\x00\x00\x00\x00\x00\
    \x00\x00\x0e\x10\
    \x00\x00\x00\x00\x0a\x4c\xb8\x00\
    \xff\xff\x02\xe0";

/// Calendars of each kind, and a zone.
pub(super) const SAMPLES: &[(Of, &[u8])] = &[
    (Of::CalendarRow, ANNUAL),
    (Of::CalendarRow, HOLIDAY),
    (Of::CalendarRow, WEEKLY),
    (Of::CalendarRow, MONTHLY),
    (Of::CalendarRow, DAILY),
    (Of::CalendarRow, CRON),
    (Of::ZoneRow, ZONE),
];

fn is_daily(row: &CalendarRow) -> bool {
    matches!(
        row.kind,
        CalendarKind::Daily {
            from: 86399000,
            to: 86399999,
            inverted: true
        }
    )
}

fn is_annual(row: &CalendarRow) -> bool {
    match &row.kind {
        CalendarKind::Annual { days } => matches!(days.as_slice(), [229, 1231]),
        _ => false,
    }
}

fn is_zone(row: &ZoneRow) -> bool {
    match row.zone.as_slice() {
        [first, second] => {
            first.from == 0
                && first.offset == 3600
                && second.from == 172800000
                && second.offset == -64800
        }
        _ => false,
    }
}

fn reads_daily(alloc: Global) -> Option<bool> {
    let row: CalendarRow = get_row(alloc, DAILY).ok()?;
    let is_right = is_daily(&row);
    drop(row);
    Some(is_right)
}

fn reads_annual(alloc: Global) -> Option<bool> {
    let row: CalendarRow = get_row(alloc, ANNUAL).ok()?;
    let is_right = is_annual(&row);
    drop(row);
    Some(is_right)
}

fn reads_zone(alloc: Global) -> Option<bool> {
    let row: ZoneRow = get_row(alloc, ZONE).ok()?;
    let is_right = is_zone(&row);
    drop(row);
    Some(is_right)
}

#[test]
fn calendars_and_zones_are_read_with_their_values(rt: HostRuntime) {
    assert!(rt; reads_daily(rt.alloc()) == Some(true));
    assert!(rt; reads_annual(rt.alloc()) == Some(true));
    assert!(rt; reads_zone(rt.alloc()) == Some(true));
}

pub(super) const SPOILED_CALENDARS: &[Spoiled] = &[
    // A name without bytes, a flag that is none, a base of 201 bytes, a zone of none, a kind that isn't there.
    Spoiled {
        of: Of::CalendarRow,
        record: ANNUAL,
        from: 1,
        bytes: &[0, 0],
        at: 1,
    },
    Spoiled {
        of: Of::CalendarRow,
        record: ANNUAL,
        from: 4,
        bytes: &[2],
        at: 4,
    },
    Spoiled {
        of: Of::CalendarRow,
        record: ANNUAL,
        from: 5,
        bytes: &[0, 201],
        at: 5,
    },
    Spoiled {
        of: Of::CalendarRow,
        record: WEEKLY,
        from: 5,
        bytes: &[0, 0],
        at: 5,
    },
    Spoiled {
        of: Of::CalendarRow,
        record: WEEKLY,
        from: 10,
        bytes: &[6],
        at: 10,
    },
    // 367 days, three of which there are two, a month 13, a day 0, the same day again.
    Spoiled {
        of: Of::CalendarRow,
        record: ANNUAL,
        from: 14,
        bytes: &[1, 111],
        at: 14,
    },
    Spoiled {
        of: Of::CalendarRow,
        record: ANNUAL,
        from: 14,
        bytes: &[0, 3],
        at: 20,
    },
    Spoiled {
        of: Of::CalendarRow,
        record: ANNUAL,
        from: 18,
        bytes: &[0x05, 0x15],
        at: 18,
    },
    Spoiled {
        of: Of::CalendarRow,
        record: ANNUAL,
        from: 16,
        bytes: &[0, 200],
        at: 16,
    },
    Spoiled {
        of: Of::CalendarRow,
        record: ANNUAL,
        from: 18,
        bytes: &[0x00, 0xe5],
        at: 18,
    },
    // 4097 dates, 2023-02-29, 1969-12-31, 2200-01-01, a date before the first.
    Spoiled {
        of: Of::CalendarRow,
        record: HOLIDAY,
        from: 11,
        bytes: &[0x10, 0x01],
        at: 11,
    },
    Spoiled {
        of: Of::CalendarRow,
        record: HOLIDAY,
        from: 13,
        bytes: &[0x01, 0x34, 0xb0, 0x55],
        at: 13,
    },
    Spoiled {
        of: Of::CalendarRow,
        record: HOLIDAY,
        from: 13,
        bytes: &[0x01, 0x2c, 0x76, 0xdf],
        at: 13,
    },
    Spoiled {
        of: Of::CalendarRow,
        record: HOLIDAY,
        from: 17,
        bytes: &[0x01, 0x4f, 0xb1, 0xe5],
        at: 17,
    },
    Spoiled {
        of: Of::CalendarRow,
        record: HOLIDAY,
        from: 17,
        bytes: &[0x01, 0x34, 0xd7, 0x64],
        at: 17,
    },
    // An eighth day of the week, a 32nd of the month.
    Spoiled {
        of: Of::CalendarRow,
        record: WEEKLY,
        from: 11,
        bytes: &[0x80],
        at: 11,
    },
    Spoiled {
        of: Of::CalendarRow,
        record: MONTHLY,
        from: 11,
        bytes: &[0x80],
        at: 11,
    },
    // From 24:00 on, to 24:00, to a ms before it begins, a flag that is none.
    Spoiled {
        of: Of::CalendarRow,
        record: DAILY,
        from: 11,
        bytes: &[0x05, 0x26, 0x5c, 0x00],
        at: 11,
    },
    Spoiled {
        of: Of::CalendarRow,
        record: DAILY,
        from: 15,
        bytes: &[0x05, 0x26, 0x5c, 0x00],
        at: 15,
    },
    Spoiled {
        of: Of::CalendarRow,
        record: DAILY,
        from: 15,
        bytes: &[0x05, 0x26, 0x58, 0x17],
        at: 15,
    },
    Spoiled {
        of: Of::CalendarRow,
        record: DAILY,
        from: 19,
        bytes: &[2],
        at: 19,
    },
    // No second.
    Spoiled {
        of: Of::CalendarRow,
        record: CRON,
        from: 11,
        bytes: &[0, 0, 0, 0, 0, 0, 0, 0],
        at: 11,
    },
];

pub(super) const SPOILED_ZONES: &[Spoiled] = &[
    // No name, no stretch, 513 stretches, three of which there are two.
    Spoiled {
        of: Of::ZoneRow,
        record: ZONE,
        from: 1,
        bytes: &[0, 0],
        at: 1,
    },
    Spoiled {
        of: Of::ZoneRow,
        record: ZONE,
        from: 4,
        bytes: &[0, 0],
        at: 4,
    },
    Spoiled {
        of: Of::ZoneRow,
        record: ZONE,
        from: 4,
        bytes: &[2, 1],
        at: 4,
    },
    Spoiled {
        of: Of::ZoneRow,
        record: ZONE,
        from: 4,
        bytes: &[0, 3],
        at: 30,
    },
    // Before 1970, after 2099, a ms less than 48 hours later, a second more than 18 hours, and one less.
    Spoiled {
        of: Of::ZoneRow,
        record: ZONE,
        from: 6,
        bytes: &[0xff],
        at: 6,
    },
    Spoiled {
        of: Of::ZoneRow,
        record: ZONE,
        from: 18,
        bytes: &[0x00, 0x00, 0x06, 0x99, 0xe9, 0x91, 0xa8, 0x00],
        at: 18,
    },
    Spoiled {
        of: Of::ZoneRow,
        record: ZONE,
        from: 18,
        bytes: &[0x00, 0x00, 0x00, 0x00, 0x0a, 0x4c, 0xb7, 0xff],
        at: 18,
    },
    Spoiled {
        of: Of::ZoneRow,
        record: ZONE,
        from: 14,
        bytes: &[0x00, 0x00, 0xfd, 0x21],
        at: 14,
    },
    Spoiled {
        of: Of::ZoneRow,
        record: ZONE,
        from: 26,
        bytes: &[0xff, 0xff, 0x02, 0xdf],
        at: 26,
    },
];
