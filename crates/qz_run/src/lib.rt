//! A run of several nodes on a virtual clock: what it asks of its stores, and its laws.
#![tactic(auto)]

mod asking;
mod clocks;
mod commands;
mod joining;
mod laws;
mod leaving;
mod settling;
mod stores;

pub use asking::{ask_acquire, ask_complete, ask_fire};
pub use clocks::{first_clock, is_by, next_of, turn_clock};
pub use commands::{Clock, Declined, Grip, NodeCommand, Passed, Plan, Worker};
pub use joining::join_all;
pub use laws::{jobs_tell_their_calls, run_numbers_are};
pub use leaving::leave_all;
pub use settling::settle;
pub use stores::{CHECK_IN_INTERVAL, NODES, ROOM, Stores};
