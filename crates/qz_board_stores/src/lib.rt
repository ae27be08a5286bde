//! A board over the trigger store: what its readers see, the store that posts while it lies under a lock row, and how such
//! a row is opened and closed.
#![tactic(auto)]

mod boarded;
mod crossing;
mod executing;
mod glances;
mod rows;
mod status_boards;
mod subject;

pub use boarded::Boarded;
pub use crossing::boards_cross_threads;
pub use rows::{BoardedRow, BoardedSeat, close_with_board, open_with_board};
pub use status_boards::StatusBoard;
pub use subject::{Base, TriggerHistories};
