//! When a trigger fires: the schedule of each kind, less what its calendars exclude; and what a misfire makes of it.
#![tactic(auto)]

mod crons;
mod fire_times;
mod misfires;
mod schedules;
mod times;

pub use fire_times::{after, first};
pub use misfires::misfired;
pub use times::FireTimes;
