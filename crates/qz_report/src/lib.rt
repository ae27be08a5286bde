//! The texts of what the scheduler answers, of stored rows, and of its histories.
#![tactic(auto)]

mod fired;
mod histories;
mod jobs;
mod names;
mod optional;
mod replies;
mod rooms;
mod shown;
mod summaries;
mod times;
mod triggers;

pub use fired::push_fired_row;
pub use histories::{history_line, history_lines};
pub use jobs::push_job;
pub use names::{push_key, push_name};
pub use optional::{Next, push_optional_name};
pub use replies::reply_line;
pub use summaries::{Counts, Summary, summary_line};
pub use times::times_line;
pub use triggers::push_trigger;
