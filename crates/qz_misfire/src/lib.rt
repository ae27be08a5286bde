//! What is done about a firing that was missed: the misfire table, by a trigger's kind and its misfire instruction.
#![tactic(auto)]

mod effects;
mod misfires;

pub use misfires::after_misfire;
