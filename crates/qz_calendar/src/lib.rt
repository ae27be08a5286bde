//! Calendars, which exclude timestamps from the schedule of a trigger, and chains of them.
#![tactic(auto)]

mod bits;
mod calendars;
mod chains;
mod clocks;
mod days;
mod limits;
mod listed;
mod moments;
mod seconds;
mod skips;
mod spans;

pub use chains::{CHAIN_LIMIT, Chain, ChainFull, included, next_included};
pub use limits::limits_are;
pub use listed::{are_annual_days, are_holidays};
