//! What the application of every command needs, over the tables of the trigger store: the recorded moment, the fence of
//! nodes, tests on texts and keys, the executions that exclude others, groups that are paused, fire times of stored
//! triggers, triggers that are finished, and jobs that go with their last trigger. Nothing here takes memory.
#![tactic(auto)]

mod executions;
mod finished;
mod horizons;
mod members;
mod moments;
mod names;
mod orphans;
mod pauses;
mod plans;

pub use executions::{is_acquired, is_busy, unblock};
pub use finished::remove_finished;
pub use members::{is_of, node_refusal, owner_refusal};
pub use moments::recorded_moment;
pub use names::{same_key, same_text};
pub use orphans::{remove_orphan, remove_trigger_and_orphan};
pub use pauses::{is_in_paused, is_job_group_paused, is_paused};
pub use plans::{move_of, next_after};
