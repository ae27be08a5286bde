//! What executions pass.
use std::sync::Wait;

/// What is called round each execution of a job, by the thread that executes. A test holds an execution by it, until it has seen
/// what it waits for.
pub trait Gate: Drop {
    /// Comes before an execution of this fired entry by this node. Nodes are counted from 1, and 0 is the node `main`.
    fn before<R: Wait>(&self, rt: &R, node: u32, entry: u64);

    /// Comes after that execution.
    fn after<R: Wait>(&self, rt: &R, node: u32, entry: u64);
}

/// A gate that holds nobody.
#[derive(Drop)]
pub struct OpenGate;

impl Gate for OpenGate {
    fn before<R: Wait>(&self, _rt: &R, _node: u32, _entry: u64) {}

    fn after<R: Wait>(&self, _rt: &R, _node: u32, _entry: u64) {}
}
