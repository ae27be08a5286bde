//! The commands of clients, applied to the tables of the trigger store.
//!
//! Each is applied in two steps. `prepare` decides it without memory, and then takes the memory that it needs: room for
//! the row that it stores, and copies. `commit` does it, and can't fail. Between them the entry can be put on the disk.
#![tactic(auto)]

mod calendars;
mod chains;
mod changes;
mod committing;
mod job_groups;
mod jobs;
mod known;
mod manual;
mod pausing;
mod preparing;
mod refusals;
mod resetting;
mod threshold;
mod triggers;
mod upgrading;
mod uses;
mod zones;

pub use changes::Change;
pub use committing::commit;
pub use preparing::prepare;
pub use refusals::refusal;
