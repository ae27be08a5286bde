//! What a line of a script, or of `times`, says. A line is one JSON object, which `serde_json` reads.
#![tactic(auto)]

mod asked;
mod calendars;
mod clients;
mod clocks;
mod faults;
mod forms;
mod items;
mod lines;
mod members;
mod nodes;
mod objects;
mod schedules;
mod steps;
mod untimed;
mod words;
mod zones;

pub use asked::{Asked, read_asked};
pub use faults::{LineError, LineFault};
pub use items::{Item, item_of};
pub use lines::{Given, read_step, value_of};
pub use members::{integer_in, optional_integer_at};
pub use qz_io::LINE_LIMIT;
