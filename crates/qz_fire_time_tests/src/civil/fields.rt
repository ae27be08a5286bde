//! Dates that meet the fields of a cron text, as a calendar has them.
use qz_civil::{Civil, CronFields, DayField, Field, LAST_YEAR, WeekField, days_in_month};
use std::process::Abort;

// A year, month, day and weekday, and whether they meet the field.
type Row = ((i32, u8, u8, u8), bool);

// 1 June 2024 was a Saturday, 1 September a Sunday and 1 July a Monday.
const FIRST_WEEKDAY: &[Row] = &[
    ((2024, 6, 3, 2), true),
    ((2024, 6, 1, 7), false),
    ((2024, 5, 31, 6), false),
    ((2024, 9, 2, 2), true),
    ((2024, 7, 1, 2), true),
];

const NEAREST_TO_15: &[Row] = &[
    ((2024, 6, 14, 6), true),
    ((2024, 6, 15, 7), false),
    ((2024, 9, 16, 2), true),
    ((2024, 10, 15, 3), true),
];
// 31 March 2024 was a Sunday and 31 August a Saturday; April has no such day.
const NEAREST_TO_31: &[Row] = &[
    ((2024, 3, 29, 6), true),
    ((2024, 4, 1, 2), false),
    ((2024, 8, 30, 6), true),
    ((2024, 4, 30, 3), false),
];

const LAST_WEEKDAY: &[Row] = &[
    ((2024, 2, 29, 5), true),
    ((2024, 6, 28, 6), true),
    ((2024, 6, 30, 1), false),
];

const LAST_DAY_OF_MONTH: &[Row] = &[
    ((2024, 2, 29, 5), true),
    ((2024, 2, 28, 4), false),
    ((2023, 2, 28, 3), true),
    ((1900, 2, 28, 4), false),
];

const THIRTY_BEFORE_LAST: &[Row] = &[((2024, 1, 1, 2), true), ((2024, 4, 1, 2), false)];

const THE_31ST: &[Row] = &[((2024, 1, 31, 4), true), ((2024, 1, 30, 3), false)];

const SUNDAYS: &[Row] = &[((2024, 3, 31, 1), true), ((2024, 3, 30, 7), false)];

const LAST_FRIDAY: &[Row] = &[((2024, 3, 29, 6), true), ((2024, 3, 22, 6), false)];

const FIFTH_FRIDAY: &[Row] = &[((2024, 3, 29, 6), true), ((2024, 2, 23, 6), false)];

const YEARS: &[Row] = &[
    ((1969, 12, 31, 4), false),
    ((1970, 1, 1, 5), true),
    ((2199, 12, 31, 3), true),
    ((2200, 1, 1, 4), false),
    ((-2024, 1, 1, 2), false),
];

const THE_FIRST_OF_JUNE: &[Row] = &[
    ((2024, 6, 1, 7), true),
    ((2025, 6, 1, 1), false),
    ((2024, 5, 1, 4), false),
];

// Every second.
const EVERY: CronFields = CronFields {
    seconds: (1 << 60) - 1,
    minutes: (1 << 60) - 1,
    hours: (1 << 24) - 1,
    day: DayField::Any,
    months: (1 << 12) - 1,
    week: WeekField::Any,
    years: [u64::MAX, u64::MAX, u64::MAX, (1 << 38) - 1],
};

const DAYS: &[(DayField, &[Row])] = &[
    (DayField::Nearest { day: 1 }, FIRST_WEEKDAY),
    (DayField::Nearest { day: 15 }, NEAREST_TO_15),
    (DayField::Nearest { day: 31 }, NEAREST_TO_31),
    (DayField::LastWeekday, LAST_WEEKDAY),
    (DayField::Last { back: 0 }, LAST_DAY_OF_MONTH),
    (DayField::Last { back: 30 }, THIRTY_BEFORE_LAST),
    (DayField::Set(1 << 30), THE_31ST),
    (DayField::Any, YEARS),
];

const WEEKS: &[(WeekField, &[Row])] = &[
    (WeekField::Set(1), SUNDAYS),
    (WeekField::Last { day: 6 }, LAST_FRIDAY),
    (WeekField::Nth { day: 6, nth: 5 }, FIFTH_FRIDAY),
];

// In June of 2024, at 12:34:56.
const ONCE_A_DAY: CronFields = CronFields {
    seconds: 1 << 56,
    minutes: 1 << 34,
    hours: 1 << 12,
    months: 1 << 5,
    years: [1 << 54, 0, 0, 0],
    ..EVERY
};

const A_SECOND_LATER: CronFields = CronFields {
    seconds: 1 << 57,
    ..EVERY
};

// Whether the date is one, and at 12:34:56 meets the fields as the row says.
fn meets(fields: &CronFields, &((year, month, day, weekday), wanted): &Row) -> bool {
    let civil = Civil {
        year,
        month,
        day,
        weekday,
        second: 45296,
        milli: 789,
    };
    let length = days_in_month(year.unsigned_abs(), month);
    1 <= month
        && month <= 12
        && 1 <= day
        && day <= length
        && 1 <= weekday
        && weekday <= 7
        && fields.meets(civil) == wanted
}

fn check(rt: &impl Abort, fields: &CronFields, rows: &[Row]) {
    for row in rows.iter() {
        assert!(rt; meets(fields, row), "{fields:?} at {row:?}");
    }
}

#[test]
fn dates_meet_fields(rt: HostRuntime) {
    for &(day, rows) in DAYS.iter() {
        check(&rt, &CronFields { day, ..EVERY }, rows);
    }
    for &(week, rows) in WEEKS.iter() {
        check(&rt, &CronFields { week, ..EVERY }, rows);
    }
    check(&rt, &ONCE_A_DAY, THE_FIRST_OF_JUNE);
    check(&rt, &A_SECOND_LATER, &[((2024, 6, 1, 7), false)]);
}

#[test]
fn fields_have_their_limits(rt: HostRuntime) {
    assert!(rt; u32::from(Field::Year.greatest()) == LAST_YEAR);
    assert!(rt;
        Field::DayOfWeek.number() == 6 && Field::Hours.size() == 24 && Field::Month.least() == 1
    );
}
