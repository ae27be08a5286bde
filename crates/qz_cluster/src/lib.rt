//! Both stores that nodes share, and the epochs under which they work: a script's steps, one after the other.
#![tactic(auto)]

mod asking;
mod checking_in;
mod checkpoints;
mod clusters;
mod entries;
mod errors;
mod held;
mod laws;
mod node_steps;
mod opening;
mod parts;
mod restarting;
mod resuming;
mod rooms;
mod steps;
mod submitting;

pub use checkpoints::Checked;
pub use clusters::Cluster;
pub use errors::{MountFault, StepEnd};
pub use laws::{scripts_keep_legal_histories, steps_keep_stores_sound};
pub use qz_trigger_store::MountError;
