//! The stores of triggers and of states, as they lie under lock rows that nodes in threads share.
#![tactic(auto)]

mod crossing;
mod states;
mod triggers;

pub use crossing::stores_cross_threads;
pub use states::SharedStates;
pub use triggers::SharedTriggers;
