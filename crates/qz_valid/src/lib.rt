//! Whether tables are valid: what every transaction keeps, decided for tables that were read and not made by transactions.
#![tactic(auto)]

mod calendars;
mod fired;
mod keys;
mod limits;
mod members;
mod names;
mod order;
mod rows;
mod triggers;
mod valid;

pub use valid::are_valid;
