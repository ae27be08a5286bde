//! How many calendars a chain may have.
ghost use Rattle.std.specs.Prelude.{◌≡◌};

use crate::chains::CHAIN_LIMIT;

/// The limit is this number. It does nothing: its contract says so, so that no edit of the constant goes unseen.
pub fn limits_are()
    ensures chain { CHAIN_LIMIT ≡ 8 }
{}
