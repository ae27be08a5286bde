//! Records of single values, both ways: numbers, texts, lists, times, the fields of a cron text, timings of triggers,
//! kinds of calendars and stretches of zones. `docs/specification/records.md` has the format.
//!
//! A function that writes puts the bytes of a value after those that are there, in version two. A function that reads
//! takes a value from the front of some bytes, and answers it with the bytes after it. Where the versions differ it takes
//! the version of the record.
#![tactic(auto)]

mod calendars;
mod cron_fields;
mod faults;
mod kinds;
mod lists;
mod numbers;
mod texts;
mod times;
mod timings;
mod versions;
mod zones;

pub use calendars::{calendar_kind_of, put_calendar_kind};
pub use faults::Fault;
pub use numbers::{
    bool_at, i32_at, i64_at, put_bool, put_i32, put_i64, put_u8, put_u32, put_u64, u8_at, u32_at,
    u64_at,
};
pub use texts::{make_texts, name_of, owned_name_of, put_name, put_str, str_at};
pub use times::{is_between, put_time, span_of, time_of};
pub use timings::{put_timing, timing_of};
pub use versions::Version;
pub use zones::{put_zone, zone_of};
