//! Documents: what a scheduler is loaded with, as one JSON object.
#![tactic(auto)]

mod documents;
mod lists;
mod order;

pub use documents::{Document, read_document};
