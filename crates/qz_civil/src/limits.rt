//! Limits on names, timestamps, spans of time, counts, years, zones and calendars.
ghost use Rattle.std.specs.Prelude.{◌≡◌, pos};

/// Bytes of a group, name, class, calendar or zone name, which has at least one.
pub const NAME_LIMIT: u64 = 200;

/// Seconds of a day.
pub const DAY_SECONDS: u64 = 86_400;

/// Milliseconds of a day.
pub const DAY_MS: u64 = 86_400_000;

/// The last timestamp that the scheduler knows, 2199-12-31T23:59:59.999Z, in ms since 1970-01-01T00:00:00Z.
pub const LAST: i64 = 7_258_118_399_999;

/// The last timestamp of stores and records of format version 1, 2099-12-31T23:59:59.999Z, in ms since
/// 1970-01-01T00:00:00Z.
pub const VERSION_ONE_LAST: i64 = 4_102_444_799_999;

/// How many seconds begin at a timestamp from 0 to `LAST`.
pub const SECONDS: u64 = (LAST as u64 + 1) / 1000;

/// The greatest start, end, interval, `no_later` and window, in ms: 2 to the power of 53, so that JSON readers
/// which keep numbers as doubles lose nothing.
pub const LONGEST: i64 = 9_007_199_254_740_992;

/// How often a simple trigger fires at most after its first time, where it has an end: Java's greatest `int`, in
/// which Quartz counts.
pub const COUNT_LIMIT: i64 = 2_147_483_647;

/// How many units an interval has at most: Java's greatest `int`, in which Quartz counts.
pub const EVERY_LIMIT: u32 = 2_147_483_647;

/// The last year that a cron text can name: that of `LAST`.
pub const LAST_YEAR: u32 = 2199;

/// The last year in stores and records of format version 1: that of `VERSION_ONE_LAST`.
pub const VERSION_ONE_LAST_YEAR: u32 = 2099;

/// The last day that dates are counted to, 9999-12-31, in days since 1969-12-31.
pub const LAST_DAY: u32 = 2_932_897;

/// The day after the last that a local clock shows at a timestamp, 2200-01-02, in days since 1969-12-31.
pub const END_DAY: u64 = LAST as u64 / DAY_MS + 3;

/// How far local time may be from UTC, in seconds: 18 hours, as in `java.time.ZoneOffset`.
pub const OFFSET_LIMIT: i32 = 64_800;

/// How far a local clock is ahead of UTC at least, in seconds: 6 hours. It is counted from 1969-12-31T00:00:00 on, and
/// UTC from 1970-01-01T00:00:00 on, so that its number is always the greater one.
pub const LEAST_SHIFT_SECONDS: u64 = DAY_SECONDS - OFFSET_LIMIT as u64;

/// How far a local clock is ahead of UTC at most, in seconds, counted in the same way: 42 hours.
pub const GREATEST_SHIFT_SECONDS: u64 = DAY_SECONDS + OFFSET_LIMIT as u64;

// The same two in ms.
pub(crate) const LEAST_SHIFT_MS: u64 = 1000 * LEAST_SHIFT_SECONDS;

pub(crate) const GREATEST_SHIFT_MS: u64 = 1000 * GREATEST_SHIFT_SECONDS;

/// How long a stretch of a zone lasts at least, in ms: 48 hours. With it and `OFFSET_LIMIT` no local time is shown more
/// than twice.
pub const STRETCH_LENGTH: i64 = 172_800_000;

/// How many stretches a zone may have.
pub const STRETCH_LIMIT: u64 = 512;

/// How many days an annual calendar may exclude.
pub const ANNUAL_LIMIT: u64 = 366;

/// How many dates a holiday calendar may exclude.
pub const HOLIDAY_LIMIT: u64 = 4096;

/// Each limit is this number. Definitions name the constants above, so this contract alone fixes what they are.
pub fn limits_are()
    ensures name { NAME_LIMIT ≡ 200 }
    ensures day_seconds { DAY_SECONDS ≡ 86400 }
    ensures day_ms { DAY_MS ≡ 86400000 }
    ensures last { LAST ≡ pos 7258118399999 }
    ensures version_one_last { VERSION_ONE_LAST ≡ pos 4102444799999 }
    ensures seconds { SECONDS ≡ 7258118400 }
    ensures longest { LONGEST ≡ pos 9007199254740992 }
    ensures count { COUNT_LIMIT ≡ pos 2147483647 }
    ensures every { EVERY_LIMIT ≡ 2147483647 }
    ensures last_year { LAST_YEAR ≡ 2199 }
    ensures version_one_last_year { VERSION_ONE_LAST_YEAR ≡ 2099 }
    ensures last_day { LAST_DAY ≡ 2932897 }
    ensures end_day { END_DAY ≡ 84008 }
    ensures offset { OFFSET_LIMIT ≡ pos 64800 }
    ensures least_shift { LEAST_SHIFT_SECONDS ≡ 21600 }
    ensures greatest_shift { GREATEST_SHIFT_SECONDS ≡ 151200 }
    ensures stretch_length { STRETCH_LENGTH ≡ pos 172800000 }
    ensures stretch { STRETCH_LIMIT ≡ 512 }
    ensures annual { ANNUAL_LIMIT ≡ 366 }
    ensures holiday { HOLIDAY_LIMIT ≡ 4096 }
{}
