//! Lines of rows, once for every kind of row.
ghost use Rattle.std.specs.Prelude.{◌≡◌, ◌++◌, ℕ, List as Items, OnOk, map, string_bytes};
ghost use Rattle.std.specs.List.{flat_map};

use std::alloc::AllocError;

/// A row that is printed as a line.
pub(crate) trait Line {
    ghost line: { Self → Items ℕ };

    /// Adds the line.
    fn push_line(&self, text: &mut String) -> Result<(), AllocError>
        ensures { OnOk result (string_bytes text.new ≡ string_bytes text.old ++ line self.now) };
}

/// Adds the line of each row.
pub(crate) fn push_all<R: Line>(text: &mut String, rows: &[&R]) -> Result<(), AllocError>
    ensures { OnOk result (string_bytes text.new ≡ string_bytes text.old ++ flat_map R.line (map (λ r. r.now) rows.now)) }
{
    for row in rows {
        row.push_line(text)?;
    }
    Ok(())
}
