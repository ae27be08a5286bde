//! Looks at a board, one after the other: what they show only grows, and the last one can be made to show all.
#![tactic(auto)]

mod last;
mod looks;
mod watches;

pub use last::look_at_all;
pub use looks::Looks;
pub use watches::Watch;
