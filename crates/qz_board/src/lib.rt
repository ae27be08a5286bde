//! A status board: a writer posts what it wants to be seen, and a reader looks at it without waiting. What a reader has
//! seen of the history is always a beginning of it, and it never goes back.
#![tactic(auto)]

mod board;
mod glance;
mod page;
mod posts;
mod rule;
mod shown;

pub use board::{Board, BoardReader, BoardWriter, Posted, crosses_threads};
pub use glance::Glance;
pub use shown::{Shown, Subject};
