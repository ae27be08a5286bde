//! What a run of nodes sees of the scheduler's tables, and what each command of its nodes makes of that.
#![tactic(auto)]

mod laws;

pub use laws::{entries_do_what_their_replies_say, names_differ, only_limits_refuse};
