//! Calls of the due queue, once more: edits of them show which wrong answers the contracts of these calls
//! refuse.
#![tactic(auto)]

mod queue;

pub use queue::{first, first_wanted, insert, remove};
