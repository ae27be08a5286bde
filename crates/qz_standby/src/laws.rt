//! The numbers of a standby.
ghost use Rattle.std.specs.Prelude.{◌≡◌, pos};

use crate::checking_in::CHECK_IN_INTERVAL;
use crate::reading::PIECE;

/// The numbers are these. It does nothing: its contract says so, so that no edit of a constant goes unseen.
pub fn standby_numbers_are()
    ensures interval { CHECK_IN_INTERVAL ≡ pos 15000 }
    ensures piece { PIECE ≡ 65536 }
{}
