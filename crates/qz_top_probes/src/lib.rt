//! The top call once more, a function for each way of calling it, and the call `history`: edits of them show which wrong answers their
//! contracts refuse.
#![tactic(auto)]

mod bad_words;
mod compacting;
mod documents;
mod fire_times;
mod following;
mod histories;
mod listings;
mod making;
mod memory;
mod migrations;
mod resting;
mod runs;
mod scripts;
mod workloads;

pub use bad_words::refuse;
pub use compacting::compact;
pub use documents::load;
pub use fire_times::times;
pub use following::follow;
pub use histories::tell;
pub use listings::list;
pub use making::init;
pub use memory::own;
pub use migrations::migrate;
pub use resting::rest;
pub use runs::run;
pub use scripts::script;
pub use workloads::generate;
