//! Snapshots of the trigger store's tables: the head and the pieces that stand in its journal, both ways.
#![tactic(auto)]

mod bases;
mod checkpoints;
mod cut_short;
mod filling;
mod heads;
mod laws;
mod marks;
mod order;
mod parts;
mod payloads;
mod rows;
mod snapshots;

pub use bases::read_base;
pub use checkpoints::checkpoint;
pub use cut_short::are_cut_short;
pub use heads::{Head, Numbers, heads_are_read_in_one_way, put_head, read_head};
pub use laws::snapshots_are_read_in_one_way;
pub use marks::is_part;
pub use parts::{Parts, read_parts};
pub use payloads::first_snapshot;
pub use rows::add_row;
