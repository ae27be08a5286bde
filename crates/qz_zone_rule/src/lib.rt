//! Zone rules: the table of stretches that a POSIX rule text, as `CET-1CEST,M3.5.0,M10.5.0/3`, stands for.
#![tactic(auto)]

mod changes;
mod expansions;
mod faults;
mod judging;
mod laws;
mod quarters;

pub use expansions::expand;
pub use faults::RuleFault;
pub use laws::{quarters_are, rules_are_jiffs};
pub use quarters::{QUARTER, QUARTERS};
