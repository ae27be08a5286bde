//! The trigger store as its tables alone.
#![tactic(auto)]

mod commands;
mod prepared;
mod replies;
mod stores;

pub use prepared::Prepared;
pub use replies::same_reply;
pub use stores::PlainStore;
