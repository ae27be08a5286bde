//! What is prepared of a Complete that isn't refused.
use qz_types::Code;

/// What a Complete does to the tables. Nothing is copied for it.
#[derive(Drop)]
pub enum Change {
    /// The execution goes on under the same entry number.
    GoOn { entry: u64 },
    /// The execution of this entry number ends with this code.
    End { entry: u64, code: Code },
}
