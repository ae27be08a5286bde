//! Looks whose number is planned.
ghost use Rattle.std.specs.Prelude.{◌+◌, ◌≤◌};

mod looking;

use crate::looks::Looks;
use qz_board::Subject;

/// A reader that is to look so many times, what it saw, and how many looks are left. It may be sent to another thread.
#[derive(Drop)]
pub struct Watch<K: Subject> {
    looks: Looks<K>,
    left: u32,
    // for those that are left, and for the last one
    ghost room: { left + 1 ≤ looks.glances.room },
}
