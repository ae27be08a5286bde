//! Tables of zone rules, as Python's `zoneinfo` converts each quarter of an hour.
use crate::zoned::Begin;
use qz_civil::{BadZone, LAST_YEAR, Stretch};
use qz_zone_rule::{RuleFault, expand};
use std::alloc::Global;
use std::test::Fail;

// Rules that change the clock twice a year: their first stretches, and the 460th and 461st, of 2199.
const TWICE_A_YEAR: &[(&str, &[Begin], &[Begin])] = &[
    (
        "CET-1CEST,M3.5.0,M10.5.0/3",
        &[(0, 3600), (7520400000, 7200), (25664400000, 3600)],
        &[(7234275600000, 7200), (7252419600000, 3600)],
    ),
    // South of the equator daylight saving time goes over the new year.
    (
        "NZST-12NZDT,M9.5.0,M4.1.0/3",
        &[(0, 46800), (8085600000, 43200), (23205600000, 46800)],
        &[(7234840800000, 43200), (7249960800000, 46800)],
    ),
    // Half an hour.
    (
        "LHST-10:30LHDT-11,M10.1.0,M4.1.0",
        &[(0, 39600), (8089200000, 37800), (23815800000, 39600)],
        &[(7234844400000, 37800), (7250571000000, 39600)],
    ),
    // Daylight saving time that is behind standard time.
    (
        "IST-1GMT0,M10.5.0,M3.5.0/1",
        &[(0, 0), (7520400000, 3600), (25664400000, 0)],
        &[(7234275600000, 3600), (7252419600000, 0)],
    ),
    // No change is at a quarter: the next one has the new offset.
    (
        "AAA3:20:11BBB2:10:05,M3.2.0/1:02:03,M11.1.0/4:05:06",
        &[(0, -12011), (5718600000, -7805), (26289000000, -12011)],
        &[(7232473800000, -7805), (7253044200000, -12011)],
    ),
];

// Day 365 is 31 December of a leap year, and stands for the end of any other year.
const ONLY_IN_LEAP_YEARS: (&str, &[Begin]) = (
    "AAA0BBB,J200/0,365/0",
    &[
        (0, 0),
        (17193600000, 3600),
        (31536000000, 0),
        (48729600000, 3600),
        (63072000000, 0),
        (80352000000, 3600),
        (94604400000, 0),
    ],
);

// Rules that never change the clock.
const ONE_OFFSET: &[(&str, &[Begin])] = &[
    ("EST5", &[(0, -18000)]),
    ("<+0845>-8:45", &[(0, 31500)]),
    ("AAA-18:00:00", &[(0, 64800)]),
    // Daylight saving time all year.
    ("EST5EDT,0/-5,J365/25", &[(0, -14400)]),
];

const REFUSED: &[(&str, RuleFault)] = &[
    ("", RuleFault::BadRule),
    ("EST", RuleFault::BadRule),
    ("EST5EDT", RuleFault::BadRule),
    ("CET-1CEST,M3.5.0,M10.5.0/3 ", RuleFault::BadRule),
    ("AAA25", RuleFault::BadRule),
    (
        "AAA18:00:01",
        RuleFault::Bad {
            fault: BadZone::OffsetOutOfRange { place: 0 },
        },
    ),
    // Standard time comes back for the first five hours of each year of UTC.
    (
        "EST5EDT,0/0,J365/25",
        RuleFault::Bad {
            fault: BadZone::NotAscending { place: 1 },
        },
    ),
    // Its daylight saving time lasts a day and a half.
    (
        "AAA0BBB,59/0,J60/12",
        RuleFault::Bad {
            fault: BadZone::NotAscending { place: 2 },
        },
    ),
];

// Whether the stretches from a place on are these.
fn has_at(stretches: &[Stretch], place: usize, wanted: &[Begin]) -> bool {
    wanted.iter().enumerate().all(|(i, &(from, offset))| {
        stretches.get(place.saturating_add(i)) == Some(&Stretch { from, offset })
    })
}

#[test]
fn rules_have_two_stretches_a_year(rt: HostRuntime) -> Result<(), Fail> {
    let years = u64::from(LAST_YEAR) - 1969;
    for (rule, first, last) in TWICE_A_YEAR.iter() {
        let stretches = expand(rt.alloc(), rule)?;
        assert!(rt; stretches.len() as u64 == 2 * years + 1, "{rule}");
        assert!(rt; has_at(stretches.as_slice(), 0, first), "{rule}");
        assert!(rt; has_at(stretches.as_slice(), 459, last), "{rule}");
    }
    Ok(())
}

#[test]
fn a_day_that_most_years_lack_is_their_end(rt: HostRuntime) -> Result<(), Fail> {
    let (rule, first) = ONLY_IN_LEAP_YEARS;
    let stretches = expand(rt.alloc(), rule)?;
    assert!(rt; has_at(stretches.as_slice(), 0, first));
    Ok(())
}

#[test]
fn rules_without_daylight_saving_time_have_one_stretch(rt: HostRuntime) -> Result<(), Fail> {
    for (rule, only) in ONE_OFFSET.iter() {
        let stretches = expand(rt.alloc(), rule)?;
        assert!(rt; stretches.len() == 1, "{rule}");
        assert!(rt; has_at(stretches.as_slice(), 0, only), "{rule}");
    }
    Ok(())
}

fn fault_of(alloc: Global, rule: &str) -> Option<RuleFault> {
    expand(alloc, rule).err()
}

#[test]
fn rules_that_give_no_zone_are_refused(rt: HostRuntime) {
    for (rule, fault) in REFUSED.iter() {
        assert!(rt; fault_of(rt.alloc(), rule) == Some(*fault), "{rule}");
    }
}

#[test]
fn faults_of_rules_have_texts(rt: HostRuntime) -> Result<(), Fail> {
    let fault = BadZone::OffsetOutOfRange { place: 0 };
    let text = RuleFault::Bad { fault }.to_string(rt.alloc())?;
    assert!(rt;
        text.as_str() == "the rule gives no zone: the offset of stretch 0 is more than 18 hours"
    );
    Ok(())
}
