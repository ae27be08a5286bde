//! A follower of a trigger store: it takes the store's bytes as they come, and keeps the tables that they leave.
#![tactic(auto)]

mod basing;
mod beginning;
mod deciding;
mod empty;
mod faults;
mod follower;
mod giving;
mod holding;
mod keeping;
mod laws;
mod promoting;
mod stages;
mod taken;

pub use faults::FollowFault;
pub use follower::Follower;
pub use keeping::Keeping;
pub use laws::{ends_are_told, entries_are_those_of_the_bytes, faults_are_told};
pub use promoting::PromoteFault;
pub use stages::Stage;
