//! The top call on the system's clock once more, a function for each way of calling it: edits of them show which wrong answers its
//! contract refuses.
#![tactic(auto)]

mod bad_words;
mod looks;
mod nodes;

pub use bad_words::refuse;
pub use looks::look;
pub use nodes::serve;
