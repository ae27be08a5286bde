//! The state store: when each node last checked in, and which nodes are taken for failed.
#![tactic(auto)]

mod creating;
mod kinds;
mod lateness;
mod laws;
mod mounting;
mod parts;
mod restarting;
mod rooms;
mod rows;
mod stores;
mod submitting;
mod transactions;

pub use kinds::Reread;
pub use laws::{
    histories_of_one_list, restarting_keeps_stores_sound, submitting_keeps_stores_sound,
};
pub use qz_journal::{MountError, NewStoreError};
pub use qz_types::SubmitError;
pub use stores::StateStore;
