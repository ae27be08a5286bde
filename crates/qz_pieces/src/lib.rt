//! The pieces of a snapshot: records of rows, each with its kind and its length, one after the other, cut where a piece would
//! be too long. What the records say is for the reader of the pieces.
#![tactic(auto)]

mod cutting;
mod kinds;
mod laws;
mod payloads;
mod reading;

pub use cutting::{PIECE_LIMIT, Pieces};
pub use kinds::RowKind;
pub use laws::{piece_limit_is, rows_are_read_in_one_way};
pub use payloads::{ReadError, read_pieces};
pub use reading::{RecordOfRow, read_piece};
