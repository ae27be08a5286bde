//! Calls on records and stores, once more: edits of them show which wrong answers the contracts of these calls refuse.
#![tactic(auto)]

mod check_ins;
mod clusters;
mod histories;
mod records;
mod runs;

pub use check_ins::{check_in, failed, forget, late_place, mount_states};
pub use clusters::{mount, step};
pub use histories::{behind, check, checkpoint, crash, mount_triggers, open, submit};
pub use records::{get_command, get_row, get_state, put_command, put_row, put_state};
pub use runs::{next_due, node_checks_in, node_submits};
