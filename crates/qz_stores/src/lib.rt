//! A store over a journal, whatever its entries are: its state, what one call makes of it, and the store itself.
#![tactic(auto)]

mod adopting;
mod checkpoints;
mod compacting;
mod creating;
mod extending;
mod gates;
mod kinds;
mod mounting;
mod parts;
mod replaying;
mod rereads;
mod restarting;
mod rooms;
mod stores;
mod submitting;

pub use compacting::CompactError;
pub use extending::ExtendError;
pub use kinds::{CheckpointError, Kind, TakeError};
pub use rereads::Reread;
pub use stores::Store;
pub use submitting::Ready;
