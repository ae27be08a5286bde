//! The times of a daily trigger: on the chosen days of the week, in even steps from one time of the day to another.
#![tactic(auto)]

mod moments;
mod patterns;
mod times;

pub use moments::next;
pub use times::DailyTimes;
