//! A standby machine: what reads the bytes of a trigger store from an input, and makes both stores of them.
#![tactic(auto)]

mod checking_in;
mod errors;
mod forms;
mod fronts;
mod laws;
mod making;
mod reading;
mod rows;
mod triggers;

pub use checking_in::CHECK_IN_INTERVAL;
pub use errors::{Unmade, Unread};
pub use forms::Form;
pub use laws::standby_numbers_are;
pub use making::{Standby, stand_by};
pub use reading::read_stream;
