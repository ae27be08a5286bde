//! A history, told transaction by transaction: objects with the line that asks for each once more, and its reply.
#![tactic(auto)]

mod objects;
mod tellers;
mod telling;

pub use telling::{TellError, tell_payloads};
