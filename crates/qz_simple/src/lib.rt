//! The fire times of a simple trigger: a start, and repeats at even intervals, as of Quartz's `SimpleTrigger`.
#![tactic(auto)]

mod repeats;
mod times;

pub use repeats::next;
pub use times::SimpleTimes;
