//! What a run asks of its stores, and what it is told to do.
use qz_types::Code;

/// What a node of a run asks of the trigger store. An Acquire takes at most one trigger, with no window.
#[derive(Clone, Copy)]
pub enum NodeCommand {
    Join,
    Leave,
    Misfires,
    /// In ms since 1970-01-01T00:00:00Z, 0 to `LAST`.
    Acquire { no_later: i64 },
    Fire { entry: u64 },
    Complete { entry: u64, code: Code },
}

/// Why a store didn't do what it was asked. A node's work ends at the first such answer.
#[derive(Clone, Copy, PartialEq, Eq, Debug)]
pub enum Declined {
    /// It is refused: a limit would be passed, which is `count`.
    TooMany { count: u64 },
    /// The record needs more bytes than are left.
    JournalFull { need: u64, room: u64 },
    /// The disk failed.
    Fault,
    NoMemory,
    /// The node isn't a member under its epoch any more: another one recovered it. A run, which declares nobody failed, has no such answer.
    Fenced,
}

/// What a run is to do. Moments are in ms since 1970-01-01T00:00:00Z, 0 to `LAST`.
#[derive(Clone, Copy)]
pub struct Plan {
    /// How many nodes work: 1 to `NODES`.
    pub nodes: u32,
    /// The clock begins here, or at the trigger store's last moment, whichever is later.
    pub from: i64,
    /// What is due later isn't fired.
    pub until: i64,
    /// How often is fired at most.
    pub budget: u64,
}

/// A node, counted from 0, and the moment at which it works.
#[derive(Clone, Copy)]
pub struct Worker {
    pub node: u32,
    pub at: i64,
}

/// A moment, in ms since 1970-01-01T00:00:00Z.
#[derive(Clone, Copy)]
pub struct Clock {
    pub at: i64,
}

/// What was acquired: its entry number, and the fire time for which it was acquired.
#[derive(Clone, Copy)]
pub struct Grip {
    pub entry: u64,
    pub next: i64,
}

/// What a pass over all nodes came to.
#[derive(Clone, Copy, PartialEq, Eq, Debug)]
pub enum Passed {
    /// The budget is spent.
    Spent,
    /// Some node held an entry or rested for the first time.
    Active,
    /// All nodes rest.
    Quiet,
}
