//! The node core: what a node does next, given what it has learnt, and the jobs that it runs.
#![tactic(auto)]

mod contexts;
mod executing;
mod hubs;
mod jobs;
mod laws;
mod list_jobs;
mod turns;

pub use contexts::{Call, JobContext, Outcome};
pub use executing::{Jobs, REFIRE_LIMIT, execute_once, place_of_class};
pub use hubs::{Hub, ask};
pub use jobs::Job;
pub use laws::{
    acquires_only_what_is_due, ends_only_when_done, refire_limit_is, rests_for_a_second_at_most,
};
pub use list_jobs::ListJob;
pub use turns::{Heard, Turn, Want};
