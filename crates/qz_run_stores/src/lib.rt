//! The two stores on their disks, as a run of nodes asks them.
#![tactic(auto)]

mod asking;
mod laws;
mod names;
mod running;
mod stores;

pub use laws::logs_are_the_stores_account;
pub use names::node_name;
pub use stores::RunStores;
