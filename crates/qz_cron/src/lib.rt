//! The next time that meets the fields of a cron text: the search goes field by field, so that no text makes it slow.
#![tactic(auto)]

mod bits;
mod days;
mod lengths;
mod moments;
mod month;
mod months;
mod seconds;
mod times;

pub use bits::next_bit;
pub use moments::next;
