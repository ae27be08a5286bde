//! The law on open executions of a cluster's runs.
#![tactic(auto)]

mod laws;

pub use laws::open_executions_are_alone;
