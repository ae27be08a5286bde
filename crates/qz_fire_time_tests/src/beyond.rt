//! Values that no line has: days in both fields of a cron trigger, daily triggers without a day or an even step, a trigger that fired as
//! often as it may, and a ninth calendar of a chain.
use crate::zoned::is_next;
use qz_calendar::Chain;
use qz_civil::{CalendarKind, CronFields, DayField, Kind, Moved, Timing, Unit, WeekField, Zone};
use qz_cron::next;
use qz_daily::DailyTimes;
use qz_misfire::after_misfire;
use qz_simple::SimpleTimes;

// 29 February on a Sunday.
const ON_A_SUNDAY: CronFields = CronFields {
    seconds: 1,
    minutes: 1,
    hours: 1,
    day: DayField::Set(1 << 28),
    months: 2,
    week: WeekField::Set(1),
    years: [u64::MAX, u64::MAX, u64::MAX, (1 << 38) - 1],
};

#[test]
fn both_days_have_to_meet(rt: HostRuntime) {
    // from that of 2004 to that of 2032
    assert!(rt; next(&ON_A_SUNDAY, &Zone::utc(), 1078012800000) == Some(1961625600000));
}

// Whether a daily trigger from 8 to 17 o'clock, of this unit and these days, is next at `wanted` after 1 January 2024 began.
fn is_daily(unit: Unit, days: u8, wanted: Option<i64>) -> bool {
    let zone = Zone::utc();
    let trigger = DailyTimes {
        start: 1704067200000,
        end: None,
        unit,
        every: 72,
        from: 28800,
        to: 61200,
        days,
        zone: &zone,
    };
    is_next(&trigger, 1704067200000, wanted)
}

#[test]
fn daily_triggers_without_a_day(rt: HostRuntime) {
    assert!(rt; is_daily(Unit::Day, 127, Some(1704096000000)) && is_daily(Unit::Minute, 0, None));
}

const MANY: u64 = 1 << 63;

// What a misfire at 6500 ms makes of a trigger that starts at 1 s, fires each second, and is next at 4 s.
fn moved(count: i64, misfire: i8, times: u64) -> Option<Moved> {
    let is_repeated = -1 <= count && count <= 2147483647;
    if !is_repeated || misfire < 0 || misfire > 5 || times > MANY {
        return None;
    }
    let timing = Timing {
        kind: Kind::Simple {
            interval: 1000,
            count,
        },
        misfire,
        start: 1000,
        end: None,
    };
    let later = SimpleTimes::new(1000, None, 1000, count);
    let moved = after_misfire(&timing, &later, 4000, times, 6500);
    drop(timing);
    Some(moved)
}

// Whether the count of firings stays at its limit, and no less than none of them is left.
fn stay_at_their_limits() -> bool {
    let most = Moved {
        start: 1000,
        next: Some(7000),
        count: -1,
        times: MANY,
    };
    let none_left = Moved {
        start: 6500,
        next: Some(6500),
        count: 0,
        times: 0,
    };
    moved(-1, 4, MANY - 1) == Some(most) && moved(10, 2, 11) == Some(none_left)
}

#[test]
fn counts_stay_at_their_limits(rt: HostRuntime) {
    assert!(rt; stay_at_their_limits());
}

// Whether a chain takes eight calendars, and no ninth.
fn takes_eight() -> bool {
    let kind = CalendarKind::Weekly { days: 0 };
    let zone = Zone::utc();
    let mut chain = Chain::empty();
    let mut taken = true;
    for _ in 0..8u8 {
        taken = chain.push(&kind, &zone).is_ok() && taken;
    }
    taken && chain.push(&kind, &zone).is_err()
}

#[test]
fn at_most_eight_calendars(rt: HostRuntime) {
    assert!(rt; takes_eight());
}
