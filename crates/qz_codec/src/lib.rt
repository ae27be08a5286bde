//! Records: the bytes of an entry of a store's history and of a row, both ways. They are written in version two, and read in
//! both versions. `docs/specification/records.md` has the
//! format, and `qz_values` the single values.
#![tactic(auto)]

mod calendars;
mod check_ins;
mod codes;
mod commands;
mod entries;
mod errors;
mod fired;
mod groups;
mod jobs;
mod keys;
mod limits;
mod members;
mod records;
mod states;
mod triggers;
mod zones;

pub use entries::{get_command, put_command};
pub use errors::ReadError;
pub use limits::RECORD_LIMIT;
pub use records::{Recorded, Row, get_row, put_row};
pub use states::{get_state, put_state};
