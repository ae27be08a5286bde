//! The stores of a cluster.

/// A store: of triggers, with all that is scheduled and who works on it, or of states, with the nodes' check-ins.
#[derive(Clone, Copy, PartialEq, Eq, Debug)]
pub enum Store {
    Triggers,
    States,
}
