//! The bytes of a trigger store, read as they come: in any pieces, each payload as soon as it is whole. No disk is read, and
//! what a payload says is for the caller.
#![tactic(auto)]

mod blocks;
mod front;
mod laws;
mod place;
mod stream;

pub use laws::{
    most_bytes_are, payloads_are_those_of_the_bytes, places_are_told, stores_are_taken,
};
pub use place::{BadStream, Next, Place};
pub use stream::Stream;
