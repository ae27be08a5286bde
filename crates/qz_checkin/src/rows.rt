//! The rows of the state store in memory.
ghost use Rattle.qz_checkin.specs.Valid.{StatesValid};

use qz_types::StateRow;

/// A row for each node that checks in, in the order of the names, and the recorded moment of the last transaction.
#[derive(Drop)]
pub struct States {
    pub(crate) rows: Vec<StateRow>,
    /// In ms since 1970-01-01T00:00:00Z.
    pub(crate) last_moment: i64,
    ghost valid: { ∥ StatesValid (record { rows = rows.items; last_moment = last_moment }) ∥₁ },
}
