//! Tables of tests, with the loop over them.
use std::alloc::{AllocError, Global};
use std::fmt::Debug;
use std::process::Abort;

/// A row of a table.
pub trait Row: Debug {
    /// Whether what the row says is so.
    fn holds(&self, alloc: Global) -> Result<bool, AllocError>;
}

/// The rows of the table hold.
pub fn check<R: Row>(rt: &impl Abort, alloc: Global, rows: &[R]) -> Result<(), AllocError> {
    for row in rows.iter() {
        assert!(rt; row.holds(alloc)?, "at {row:?}");
    }
    Ok(())
}
