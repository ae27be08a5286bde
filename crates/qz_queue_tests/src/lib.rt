//! Tests of the due queue.
#![tactic(auto)]

#[cfg(test)]
mod queue;
