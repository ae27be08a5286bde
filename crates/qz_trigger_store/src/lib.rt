//! The trigger store on a disk: a history of entries, kept in a journal, and the tables that they leave.
#![tactic(auto)]

mod accepted;
mod adopting;
mod checkpoints;
mod compacting;
mod creating;
mod extending;
mod kinds;
mod laws;
mod mounting;
mod parts;
mod restarting;
mod rooms;
mod stores;
mod submitting;
mod triggers;

pub use accepted::{Accepted, Keep};
pub use kinds::Reread;
pub use laws::{
    checkpoints_keep_stores_sound, histories_of_one_list, old_stores_fire_until_2099,
    restarting_keeps_stores_sound, submitting_keeps_stores_sound,
};
pub use qz_journal::{MountError, NewStoreError};
pub use qz_stores::ExtendError;
pub use qz_types::SubmitError;
pub use stores::TriggerStore;
