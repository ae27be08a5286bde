//! `times`: for each trigger that a line gives, its first fire times. Nothing is stored.
#![tactic(auto)]

mod answers;
mod beginning;
mod ends;
mod known;
mod obeying;
mod queries;
mod reply_lines;
mod runs;
mod said;
mod telling;

pub use ends::TimesEnd;
pub use queries::Query;
pub use runs::run_times;
