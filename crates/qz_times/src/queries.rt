//! Which fire times are asked for.

/// How many fire times of each trigger are asked for at most, and after which moment.
#[derive(Clone, Copy, PartialEq, Eq, Debug)]
pub struct Query {
    /// A timestamp or -1, in ms since 1970-01-01T00:00:00Z.
    pub after: i64,
    pub count: u32,
}
