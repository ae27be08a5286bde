//! Calls of a board, once more: edits of them show which wrong answers the contracts of these calls refuse.
#![tactic(auto)]

mod boards;
mod stores;
mod watches;

pub use boards::{learn, look, post};
pub use stores::open_board;
pub use watches::{make_watch, tell_all, tell_one, watch};
