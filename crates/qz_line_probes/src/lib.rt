//! Calls on lines, documents and listings, once more: edits of them show which wrong answers the contracts of these calls
//! refuse.
#![tactic(auto)]

mod documents;
mod lines;
mod listings;
mod times;

pub use documents::read_document;
pub use lines::{item_of, read_asked, read_step};
pub use listings::list_lines;
pub use times::run_times;
