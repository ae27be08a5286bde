//! What a board shows.

/// The state of a scheduler at a glance.
#[derive(Clone, Copy, PartialEq, Eq, Debug)]
pub struct Glance {
    /// How many entries the history has, with those that came before its list.
    pub entries: u64,
    /// How many jobs are stored.
    pub jobs: u64,
    /// How many triggers are stored.
    pub triggers: u64,
    /// How many executions are going on.
    pub executing: u64,
    /// The moment of the last entry, in milliseconds since 1970 in UTC.
    pub last: i64,
    /// When the first waiting trigger is due, in the order in which triggers are due: in milliseconds since 1970 in UTC.
    pub next: Option<i64>,
}
