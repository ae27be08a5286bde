//! Jobs and triggers that a number gives, for runs without an input: the same commands each time.
#![tactic(auto)]

mod choices;
mod commands;
mod draws;
mod jobs;
mod limits;
mod triggers;

pub use commands::make_commands;
pub use limits::{FIRST_MOMENT, first_moment_is};
