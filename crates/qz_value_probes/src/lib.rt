//! Calls on single values, once more: edits of them show which wrong answers the contracts of these calls refuse.
#![tactic(auto)]

mod calendars;
mod calls;
mod cron_texts;
mod fields;
mod fire_times;
mod reports;
mod sorted;
mod texts;
mod zones;

pub use calendars::included_with_base;
pub use calls::{make_commands, read_serve, read_words};
pub use cron_texts::{parse, print};
pub use fields::{is_set, nearest_weekday};
pub use fire_times::{next_of_cron, next_of_daily, next_of_interval, next_of_simple};
pub use reports::{history_line, push_job, push_trigger, reply_line, summary_line};
pub use sorted::{find, insert, number};
pub use texts::cmp;
pub use zones::{date_of, earliest_at, offset_until, span_from};
