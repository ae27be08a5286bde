//! What both stores have, as text.
#![tactic(auto)]

mod calendars;
mod fired;
mod jobs;
mod lines;
mod listing;
mod triggers;

pub use listing::list_lines;
