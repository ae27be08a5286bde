//! Local times and their timestamps, as Python's `datetime` has them.
use crate::zoned::{Begin, Row, check, check_in_zones, list_of};
use qz_civil::{BadZone, Civil, LAST, List, Stretch, Zone};
use std::alloc::{AllocError, Global};
use std::test::Fail;

// A year, month, day, weekday and second of the day, and the timestamps that show them.
type LocalRow = ((i32, u8, u8, u8, u32), Option<i64>, Option<i64>);

// Central Europe in 2024.
const BERLIN: &[Begin] = &[(0, 3600), (1711846800000, 7200), (1729990800000, 3600)];

const BERLIN_ROWS: &[LocalRow] = &[
    ((2024, 3, 31, 1, 9000), None, None),
    ((2024, 3, 31, 1, 10800), Some(1711846800000), None),
    (
        (2024, 10, 27, 1, 7200),
        Some(1729987200000),
        Some(1729990800000),
    ),
    (
        (2024, 10, 27, 1, 9000),
        Some(1729989000000),
        Some(1729992600000),
    ),
    ((2024, 10, 27, 1, 10800), Some(1729994400000), None),
    // It was a Sunday.
    ((2024, 10, 27, 2, 10800), None, None),
];

// Nepal's quarter of an hour, and the same one given back.
const QUARTER_SKIPPED: &[Begin] = &[(0, 19800), (504901800000, 20700)];

const QUARTER_SKIPPED_ROWS: &[LocalRow] = &[
    ((1985, 12, 31, 3, 86399), Some(504901799000), None),
    ((1986, 1, 1, 4, 420), None, None),
    ((1986, 1, 1, 4, 900), Some(504901800000), None),
];

const QUARTER_TWICE: &[Begin] = &[(0, 20700), (504901800000, 19800)];

const QUARTER_TWICE_ROWS: &[LocalRow] = &[
    ((1986, 1, 1, 4, 0), Some(504900900000), Some(504901800000)),
    ((1986, 1, 1, 4, 900), Some(504902700000), None),
];

// Samoa's day, and the same one given back.
const DAY_SKIPPED: &[Begin] = &[(0, -36000), (1325239200000, 50400)];

const DAY_SKIPPED_ROWS: &[LocalRow] = &[
    ((2011, 12, 29, 5, 86399), Some(1325239199000), None),
    ((2011, 12, 30, 6, 43200), None, None),
    ((2011, 12, 31, 7, 0), Some(1325239200000), None),
];

const DAY_TWICE: &[Begin] = &[(0, 50400), (1325239200000, -36000)];

const DAY_TWICE_ROWS: &[LocalRow] = &[
    (
        (2011, 12, 30, 6, 43200),
        Some(1325196000000),
        Some(1325282400000),
    ),
    ((2011, 12, 31, 7, 0), Some(1325325600000), None),
];

// The farthest step there is, and back after 48 hours.
const FARTHEST: &[Begin] = &[(0, -64800), (864000000, 64800), (1036800000, -64800)];

const FARTHEST_ROWS: &[LocalRow] = &[
    ((1970, 1, 10, 7, 21600), None, None),
    ((1970, 1, 11, 1, 64800), Some(864000000), None),
    ((1970, 1, 12, 2, 21600), Some(907200000), Some(1036800000)),
];

// Before its first stretch a zone has that one's offset.
const LATE: &[Begin] = &[(1711846800000, 7200)];

const LATE_ROWS: &[LocalRow] = &[
    ((1970, 1, 1, 5, 3600), None, None),
    ((1970, 1, 1, 5, 7200), Some(0), None),
    ((2024, 3, 31, 1, 10799), Some(1711846799000), None),
];

const WEST_ROWS: &[LocalRow] = &[
    ((1969, 12, 31, 4, 21599), None, None),
    ((1969, 12, 31, 4, 21600), Some(0), None),
    ((2199, 12, 31, 3, 21600), None, None),
];

const EAST_ROWS: &[LocalRow] = &[
    ((1970, 1, 1, 5, 64799), None, None),
    ((2200, 1, 1, 4, 64799), Some(7258118399000), None),
    ((2200, 1, 1, 4, 64800), None, None),
];

const UTC_ROWS: &[LocalRow] = &[
    ((2000, 2, 29, 3, 0), Some(951782400000), None),
    ((2100, 2, 29, 2, 0), None, None),
    ((2023, 2, 29, 4, 0), None, None),
    ((2024, 1, 1, 2, 86400), None, None),
    ((-2024, 1, 1, 2, 0), None, None),
];

const TABLES: &[(&[Begin], &[LocalRow])] = &[
    (BERLIN, BERLIN_ROWS),
    (QUARTER_SKIPPED, QUARTER_SKIPPED_ROWS),
    (QUARTER_TWICE, QUARTER_TWICE_ROWS),
    (DAY_SKIPPED, DAY_SKIPPED_ROWS),
    (DAY_TWICE, DAY_TWICE_ROWS),
    (FARTHEST, FARTHEST_ROWS),
    (LATE, LATE_ROWS),
];

// Offsets in minutes.
const FIXED: &[(i32, &[LocalRow])] = &[(-1080, WEST_ROWS), (1080, EAST_ROWS), (0, UTC_ROWS)];

// Whether a timestamp shows the local time, of which this is the earliest one.
fn shows(zone: &Zone, ms: i64, civil: Civil, first: Option<i64>) -> bool {
    0 <= ms && ms <= LAST && zone.civil(ms) == civil && zone.earliest_at(zone.local(ms)) == first
}

// The local time has the row's timestamps, of which the first is its earliest, and the last shows it.
impl Row for LocalRow {
    fn holds(&self, zone: &Zone) -> bool {
        let &((year, month, day, weekday, second), first, last) = self;
        let civil = Civil {
            year,
            month,
            day,
            weekday,
            second,
            milli: 0,
        };
        let is_shown = match last.or(first) {
            Some(ms) => shows(zone, ms, civil, first),
            None => true,
        };
        is_shown && zone.instants_of(civil) == (first, last)
    }
}

#[test]
fn local_times_have_at_most_two_timestamps(rt: HostRuntime) -> Result<(), Fail> {
    check_in_zones(&rt, rt.alloc(), TABLES)
}

#[test]
fn fixed_offsets_have_at_most_one(rt: HostRuntime) {
    for &(minutes, rows) in FIXED.iter() {
        assert!(rt; -1080 <= minutes && minutes <= 1080);
        check(&rt, &Zone::fixed(minutes), rows);
    }
}

// The year, the second of the day and the millisecond of the last timestamp, in the zone.
fn last_of(zone: &Zone) -> (i32, u32, u16) {
    let last = zone.civil(LAST);
    (last.year, last.second, last.milli)
}

#[test]
fn the_last_timestamp_is_in_2199_or_2200(rt: HostRuntime) {
    assert!(rt; last_of(&Zone::utc()) == (2199, 86399, 999));
    assert!(rt; last_of(&Zone::fixed(1080)) == (2200, 64799, 999));
}

const BAD_ZONES: &[(&[Begin], BadZone)] = &[
    (&[], BadZone::Empty),
    (&[(-1, 64801)], BadZone::FromOutOfRange { place: 0 }),
    (
        &[(0, 64801), (0, 0)],
        BadZone::OffsetOutOfRange { place: 0 },
    ),
    (
        &[(0, 0), (0, -64801)],
        BadZone::OffsetOutOfRange { place: 1 },
    ),
    (
        &[(0, 0), (172799999, 3600), (-1, 0)],
        BadZone::NotAscending { place: 1 },
    ),
    (
        &[(172800000, 0), (0, 0)],
        BadZone::NotAscending { place: 1 },
    ),
    (
        &[(0, 0), (7258118400000, 64801)],
        BadZone::FromOutOfRange { place: 1 },
    ),
    (
        &[(7258118399999, 0), (7258118400000, 0)],
        BadZone::FromOutOfRange { place: 1 },
    ),
];

fn fault_of(alloc: Global, stretches: &[Begin]) -> Result<Option<BadZone>, AllocError> {
    Ok(Zone::table(list_of(alloc, stretches)?).err())
}

#[test]
fn bad_zones_are_refused_in_order(rt: HostRuntime) -> Result<(), AllocError> {
    for (stretches, want) in BAD_ZONES.iter() {
        assert!(rt; fault_of(rt.alloc(), stretches)? == Some(*want), "{want:?}");
    }
    Ok(())
}

// As many stretches as there may be, each of 48 hours.
fn longest_list(alloc: Global) -> Result<List<Stretch>, AllocError> {
    let mut list = List::new(alloc);
    for place in 0..512i64 {
        list.push(Stretch {
            from: place.saturating_mul(172800000),
            offset: 0,
        })?;
    }
    Ok(list)
}

// Whether a zone of that list finds its first and last stretches.
fn is_found(zone: &Zone) -> bool {
    let at = (zone.stretch_at(511 * 172800000 - 1), zone.stretch_at(LAST));
    let until = (zone.offset_until(172800000 - 1), zone.offset_until(LAST));
    at == (510, 511) && until == ((0, Some(172800000)), (0, None))
}

// Whether the list is a zone, which finds its stretches.
fn finds_512_stretches(alloc: Global) -> Result<bool, AllocError> {
    match Zone::table(longest_list(alloc)?) {
        Ok(zone) => Ok(is_found(&zone)),
        Err(_) => Ok(false),
    }
}

// The fault of one stretch more, which is bad too.
fn fault_of_one_more(alloc: Global) -> Result<Option<BadZone>, AllocError> {
    let mut list = longest_list(alloc)?;
    list.push(Stretch {
        from: -1,
        offset: 64801,
    })?;
    Ok(Zone::table(list).err())
}

#[test]
fn a_zone_has_at_most_512_stretches(rt: HostRuntime) -> Result<(), AllocError> {
    let many = BadZone::TooManyStretches { count: 513 };
    assert!(rt; fault_of_one_more(rt.alloc())? == Some(many));
    assert!(rt; finds_512_stretches(rt.alloc())?);
    Ok(())
}

#[test]
fn bad_zones_have_texts(rt: HostRuntime) -> Result<(), AllocError> {
    let text = BadZone::NotAscending { place: 1 }.to_string(rt.alloc())?;
    assert!(rt; text.as_str() == "stretch 1 doesn't begin at least 48 hours after the one before");
    Ok(())
}
