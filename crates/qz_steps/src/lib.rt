//! Steps of a script, and what they answer, as plain data.
#![tactic(auto)]

mod questions;
mod rooms;
mod steps;

pub use questions::{Question, Shown, ShownEntry};
pub use rooms::{Fill, Marked, Room};
pub use steps::{Step, StepReply};
