//! Nodes that work in threads of their own on stores that they share.
#![tactic(auto)]

mod boards;
mod both_stores;
mod calls;
mod courses;
mod entries;
mod members;
mod names;
mod served;
mod telling;
mod threads;
mod transactions;
mod views;

pub use calls::serve;
pub use served::Served;
pub use threads::{Gate, OpenGate};
