//! Calls on tables, and the transactions on them, once more: edits of them show which wrong answers the contracts of these
//! calls refuse.
#![tactic(auto)]

mod acquiring;
mod completing;
mod members;
mod pauses;
mod rows;
mod scheduling;
mod stores;

pub use acquiring::{commit_acquiring, prepare_acquiring};
pub use completing::{commit_completing, prepare_completing};
pub use members::{commit_members, prepare_members};
pub use pauses::is_in_paused;
pub use rows::{
    change_state, first_due, get_job, insert_job, next_due, remove_acquired, remove_job, reserve,
    resume_group_states,
};
pub use scheduling::{commit_scheduling, prepare_scheduling};
pub use stores::{commit, prepare, refusal, step};
