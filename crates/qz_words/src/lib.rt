//! The words of the command line.
#![tactic(auto)]

mod histories;
mod limits;
mod numbers;
mod running;
mod serves;
mod wishes;

pub use histories::read_history;
pub use limits::limits_are;
pub use running::{BUDGET_LIMIT, DAY_LIMIT, JOB_LIMIT, NODE_LIMIT, USUAL_BUDGET};
pub use serves::{LOOK_LIMIT, Serving, read_serve};
pub use wishes::{COUNT_LIMIT, Wish, WordFault, read_words};
