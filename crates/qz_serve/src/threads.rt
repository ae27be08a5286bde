//! The threads of nodes that share a trigger store and a state store. Each node has a scheduler thread, which fires, executes and
//! completes what is due, and a check-in thread.
mod asking;
mod causes;
mod chain;
mod executing;
mod gates;
mod lists;
mod looking;
mod nodes;
mod pairs;
mod performing;
mod serving;
mod steps;
mod watched;
mod watching;
mod working;

pub use gates::{Gate, OpenGate};
pub(crate) use serving::{serve_main, serve_nodes};
