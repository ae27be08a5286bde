//! The law of schedules over whole histories of the trigger store: a trigger fires for the times of its schedule, one after the
//! other, as long as nothing disturbs it.
#![tactic(auto)]

mod examples;
mod laws;

pub use examples::two_firings;
pub use laws::triggers_fire_their_schedule;
