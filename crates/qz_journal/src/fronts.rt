//! What a disk begins with.
ghost use Rattle.std.specs.Prelude.{◌≤◌, ◌+◌, IfOk};
ghost use Rattle.qz_civil.specs.Causes.{HasCause};
ghost use Rattle.qz_disk.specs.Disk.{Stays, LeavesOnly};
ghost use Rattle.qz_journal.specs.Making.{HasFront};

use crate::layout::{FRONT_LENGTH, is_store, other_kind};
use qz_civil::Failed;
use qz_disk::Disk;

/// Which store a disk begins with, in any version.
#[derive(Clone, Copy, PartialEq, Eq, Debug)]
pub enum Front {
    /// The store of the kind that was asked for.
    This,
    /// The store of the other kind.
    Other,
    /// No store.
    Neither,
}

/// Looks at the first six bytes of a disk, for a store of this kind, `TRIGGERS` or `STATES`. It only reads. `Failed` is returned
/// only if the disk's count of faults rose.
#[tactic(auto, using(crate::proofs::Headers::of_headers))]
pub fn look<D: Disk>(disk: &mut D, kind: u8) -> Result<Front, Failed>
    ensures front { D.honest → IfOk result (HasFront (D.state disk.old).content kind) }
    ensures unchanged { D.honest → Stays (D.state disk.old) (D.state disk.new) }
    ensures any_moment { D.honest → LeavesOnly (D.state disk.old) (D.state disk.new) (D.state disk.old).IsImage }
    ensures bytes_read { D.honest → (D.state disk.new).bytes_read ≤ (D.state disk.old).bytes_read + 6 }
    ensures cause { HasCause (D.faults disk.old) (D.faults disk.new) result }
{
    let len = disk.len()?;
    if len < FRONT_LENGTH as u64 {
        return Ok(Front::Neither);
    }
    let mut front = [0; FRONT_LENGTH];
    disk.read(0, &mut front)?;
    if is_store(kind, &front) {
        return Ok(Front::This);
    }
    if is_store(other_kind(kind), &front) {
        return Ok(Front::Other);
    }
    Ok(Front::Neither)
}
