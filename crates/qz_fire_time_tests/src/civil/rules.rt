//! Which fields a cron text may give, and the spans of a zone.
use crate::zoned::zone_of;
use qz_civil::{DayField, Field, Zone, is_year_set, second_from};
use std::test::Fail;

const SETS: &[(Field, u64, bool)] = &[
    (Field::Seconds, 1 << 59, true),
    (Field::Seconds, 1 << 60, false),
    (Field::Hours, 0, false),
    (Field::DayOfMonth, 0x7fff_ffff, true),
    (Field::Month, 1 << 12, false),
    (Field::DayOfWeek, 127, true),
    (Field::Year, u64::MAX, true),
];

const VALUES: &[(Field, u16, bool)] = &[
    (Field::Minutes, 0, true),
    (Field::DayOfMonth, 0, false),
    (Field::DayOfMonth, 31, true),
    (Field::DayOfWeek, 8, false),
    (Field::Year, 2199, true),
];

const YEARS: &[([u64; 4], bool)] = &[
    ([0, 0, 0, (1 << 38) - 1], true),
    ([1, 0, 0, 1 << 38], false),
    ([0, 0, 0, 1 << 63], false),
    ([0; 4], false),
];

#[test]
fn sets_of_fields(rt: HostRuntime) {
    for &(field, set, wanted) in SETS.iter() {
        assert!(rt; field.is_set(set) == wanted, "{field:?} {set:x}");
    }
}

#[test]
fn values_of_fields(rt: HostRuntime) {
    for &(field, value, wanted) in VALUES.iter() {
        assert!(rt; field.is_value(value) == wanted, "{field:?} {value}");
    }
}

#[test]
fn sets_of_years(rt: HostRuntime) {
    for &(words, wanted) in YEARS.iter() {
        assert!(rt; is_year_set(words) == wanted, "{words:?}");
    }
}

#[test]
fn any_day_alone_is_any(rt: HostRuntime) {
    assert!(rt; DayField::Any.is_any() && !DayField::LastWeekday.is_any());
}

// The shifts and ends of the spans before and after the clock went to summer time.
fn spans(zone: &Zone) -> [(u64, u64); 2] {
    let winter = zone.span_from(second_from(1711846798001));
    let summer = zone.span_from(1711846800);
    [(winter.shift, winter.end), (summer.shift, summer.end)]
}

// Central European Time of March 2024.
#[test]
fn spans_of_a_zone(rt: HostRuntime) -> Result<(), Fail> {
    let zone = zone_of(rt.alloc(), &[(0, 3600), (1711846800000, 7200)])?;
    assert!(rt; spans(&zone) == [(90000, 1711846800), (93600, 7258118400)]);
    Ok(())
}
