//! A lock whose value has a history. Each participant of the lock has a seat, and what a seat has seen of the history
//! is always a beginning of it.
#![tactic(auto)]

mod logged;
mod plays;
mod row;
mod view;

pub use logged::Logged;
pub use row::{Note, RowLock, Seat, crosses_threads};
