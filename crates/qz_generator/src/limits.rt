//! When all begins.
ghost use Rattle.std.specs.Prelude.{◌≡◌, pos};

/// The start of each trigger that is made: 2024-01-01T00:00:00Z, in ms since 1970-01-01T00:00:00Z.
pub const FIRST_MOMENT: i64 = 1704067200000;

/// The moment is this number. It does nothing: its contract says so, so that no edit of the constant goes unseen.
pub fn first_moment_is()
    ensures { FIRST_MOMENT ≡ pos 1704067200000 }
{}
