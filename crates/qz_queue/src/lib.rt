//! Slots in the order of their due keys. They are slots of a table that somebody else keeps, and the queue doesn't know
//! what a slot stands for.
#![tactic(auto)]

mod edits;
mod order;
mod queue;
mod sifts;
mod walks;

pub use order::{Compare, Ranked, Tally};
pub use queue::DueQueue;
pub use walks::Choice;
