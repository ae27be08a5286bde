//! A list that only contracts read.
#![tactic(auto)]

mod logs;

pub use logs::Log;
