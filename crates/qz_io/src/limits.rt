//! Limits of an input of lines.
ghost use Rattle.std.specs.Prelude.{◌≡◌};

/// The greatest number of bytes of a line, without its line feed.
pub const LINE_LIMIT: usize = 65536;

/// The greatest number of lines of an input that is answered line by line.
pub const LINE_COUNT_LIMIT: u64 = 1048576;

/// A law: the limits are these numbers. Definitions cite them by name.
pub fn limits_are()
    ensures line { LINE_LIMIT ≡ 65536 }
    ensures count { LINE_COUNT_LIMIT ≡ 1048576 }
{}
