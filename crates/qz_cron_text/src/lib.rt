//! Cron texts: the grammar of Quartz's cron expressions, read exactly, and the one canonical text of what was read.
#![tactic(auto)]

mod cuts;
mod elements;
mod errors;
mod forms;
mod laws;
mod parsing;
mod printing;
mod runs;
mod sets;
mod texts;
mod values;

pub use errors::CronError;
pub use laws::{printed_texts_are_read_again, texts_have_one_meaning};
pub use parsing::parse;
pub use printing::print;
