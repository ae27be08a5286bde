//! Stored rows and transactions as JSON: rows as documents have them, and transactions as lines of scripts. Each call adds a text to
//! a buffer, and after an error the buffer holds a part of it.
#![tactic(auto)]

mod calendars;
mod jobs;
mod json;
mod lines;
mod lists;
mod members;
mod numbers;
mod triggers;
mod zones;

pub use calendars::push_calendar;
pub use jobs::push_job;
pub use json::{push_bytes, push_number, push_text, push_unsigned};
pub use lines::push_line;
pub use members::{push_label, push_more};
pub use triggers::{push_trigger, push_trigger_members};
pub use zones::push_zone;
