//! A node's check-in thread: it checks in, and recovers what failed nodes had in their hands.
#![tactic(auto)]

mod clocks;
mod declining;
mod recovering;
mod rounds;
mod stores;

pub use clocks::{SharedClock, StillClock};
pub use declining::declined;
pub use recovering::recover_one;
pub use rounds::check_rounds;
pub use stores::{NodeStore, RoundStore};
