//! What every layer of the scheduler uses: texts and lists that contracts see as plain lists, the two failures that any
//! layer may pass on, the limits, zones and their local time, the fields of a cron text, the timing of a trigger, and
//! the kinds of calendars.
#![tactic(auto)]

mod calendars;
mod dates;
mod earliest;
mod failures;
mod field_rules;
mod fields;
mod kept;
mod limits;
mod lists;
mod lists_with_room;
mod occurrences;
mod spans;
mod stretches;
mod texts;
mod timestamps;
mod timings;
mod zones;

pub use calendars::{CalendarKind, is_annual_day, is_holiday};
pub use dates::{Civil, Date, date_of, day_of, days_in_month, weekday_of};
pub use failures::{Failed, NoMemory};
pub use field_rules::is_year_set;
pub use fields::{CronFields, DayField, Field, WeekField, has_bit, nearest_weekday};
pub use kept::beside;
pub use limits::{
    ANNUAL_LIMIT, COUNT_LIMIT, DAY_MS, DAY_SECONDS, END_DAY, EVERY_LIMIT, GREATEST_SHIFT_SECONDS,
    HOLIDAY_LIMIT, LAST, LAST_DAY, LAST_YEAR, LEAST_SHIFT_SECONDS, LONGEST, NAME_LIMIT,
    OFFSET_LIMIT, SECONDS, STRETCH_LENGTH, STRETCH_LIMIT, VERSION_ONE_LAST, VERSION_ONE_LAST_YEAR,
    limits_are,
};
pub use lists::List;
pub use lists_with_room::ListWithRoom;
pub use occurrences::{Occurrence, before_end, first_occurrence, to_unsigned};
pub use spans::{Span, moment_of, second_from};
pub use stretches::{BadZone, Stretch, is_offset, may_begin};
pub use texts::Text;
pub use timestamps::Times;
pub use timings::{Kind, Moved, Timing, Unit};
pub use zones::Zone;
