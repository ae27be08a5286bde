//! What is copied of the tables for a command, before it changes them.
use qz_civil::{List, Text};
use qz_types::{Key, MemberRow, TriggerRow};

/// What a command on members changes, with the memory that it takes.
#[derive(Drop)]
pub enum Change {
    /// The node of this name joins. What the member of that name had is recovered, if there is one.
    Join {
        name: Text,
        former: Option<Recovery>,
    },
    /// The actor of the entry leaves.
    Leave,
    /// What a failed member had is recovered.
    Recover(Recovery),
}

/// The recovery of what a member had in its hands.
#[derive(Drop)]
pub struct Recovery {
    pub(crate) member: MemberRow,
    /// The triggers that are added for its executions.
    pub(crate) added: List<TriggerRow>,
    /// The keys of the triggers of its executions.
    pub(crate) ended: List<Key>,
}

/// How many executions were ended, and how many triggers were added for them.
#[derive(Clone, Copy)]
pub struct RecoveryCounts {
    pub executions: u64,
    pub triggers: u64,
}
