//! A whole input, read to its end, as a document is.
#![tactic(auto)]

mod limits;
mod whole;

pub use limits::{DOCUMENT_LIMIT, document_limit_is};
pub use whole::{ReadWholeError, block_of_whole_is, read_whole};
