//! The fire times of a calendar-interval trigger: even steps of the clock or of the calendar, as of Quartz's
//! `CalendarIntervalTrigger`.
#![tactic(auto)]

mod clocks;
mod dated;
mod intervals;
mod numbers;
mod times;
mod turns;

pub use intervals::next;
pub use times::IntervalTimes;
