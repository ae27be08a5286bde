//! Calls that tell what a store has: its history.
#![tactic(auto)]

mod calls;
mod readings;
mod reports;

pub use calls::{Told, history};
