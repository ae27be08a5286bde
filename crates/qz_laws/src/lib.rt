//! Laws of whole histories of the trigger store: what each accepted entry adds up to over all that came before it.
#![tactic(auto)]

mod commands;
mod examples;
mod laws;

pub use commands::{
    a_held_recovery, an_upgrade_of_an_old_store, job_groups_hold_new_triggers, two_resets,
};
pub use examples::three_lost_executions;
pub use laws::{
    gone_nodes_never_act, lost_executions_are_recovered_once, old_histories_stay_legal,
};
