//! The tables of the trigger store: rows of eight kinds, each in the order of its ids, numbers, and the order in which
//! triggers were linked to their jobs.
#![tactic(auto)]

mod bulk;
mod by_job;
mod calendars;
mod due;
mod due_keys;
mod edits;
mod fired;
mod groups;
mod guesses;
mod in_step;
mod indexed;
mod job_groups;
mod job_triggers;
mod jobs;
mod linked;
mod members;
mod row_tests;
mod tables;
mod timed;
mod triggers;
mod zones;

pub use due::Any;
pub use edits::{Begin, StateChange, YearChange};
pub use indexed::Test;
pub use job_triggers::JobTriggers;
pub use tables::{RowCounts, Tables};
