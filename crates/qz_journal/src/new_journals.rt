//! A new journal that is open.
ghost use Rattle.std.specs.Prelude.{◌≡◌, ◌<◌, ◌≤◌, [], true, IsTrue, IfOk, IfErr, OnOk, MatchResult, None, Some, Err, vec_capacity};
ghost use Rattle.qz_civil.specs.Causes.{Rose};
ghost use Rattle.qz_journal.specs.Layout.{is_version, end_of};
ghost use Rattle.qz_journal.specs.Making.{Makes};
ghost use Rattle.qz_journal.specs.declared.layout.TheConstants.{MAX_COMMIT};

use crate::appending::put_through;
use crate::fronts::look;
use crate::layout::{HEADER_LENGTH, MAX_COMMIT, empty_store};
use crate::{Front, Journal, NewStoreError, Slots};
use qz_civil::Failed;
use qz_disk::Disk;
use std::alloc::Global;

impl<D: Disk> Journal<D> {
    /// Makes an empty journal of this version, 1 or 2, and this kind, `TRIGGERS` or `STATES`, as `create_version` does, and opens it
    /// without reading it back. All memory is taken before anything is written. An `Err` hands the disk back.
    pub fn create(
        alloc: Global,
        mut disk: D,
        version: u8,
        kind: u8,
    ) -> Result<Journal<D>, (NewStoreError, D)>
        requires { IsTrue (is_version version) }
        ensures new { IfOk result (λ j. (j.version ≡ version) × (j.kind ≡ kind) × (j.gate ≡ end_of []) × (j.count ≡ 0)
            × (j.closed ≡ None) × (j.slots ≡ record { a = None; b = None })) }
        ensures made { D.honest → MatchResult result (λ j. Makes version kind None (D.state disk) (D.state j.disk))
            (λ e. Makes version kind (Some e.0) (D.state disk) (D.state e.1)) }
        ensures later { MatchResult result (λ j. D.faults disk ≤ D.faults j.disk) (λ e. D.faults disk ≤ D.faults e.1) }
        ensures fault { IfErr result (λ e. e.0 ≡ NewStoreError.Fault → Rose (D.faults disk) (D.faults e.1)) }
    {
        match make(alloc, &mut disk, version, kind) {
            Ok(commit) => Ok(Journal {
                disk,
                version,
                kind,
                gate: HEADER_LENGTH as u64,
                count: 0,
                slots: Slots { a: None, b: None },
                closed: None,
                commit,
            }),
            Err(error) => Err((error, disk)),
        }
    }
}

// Makes an empty journal, with room for one commit in memory.
fn make<D: Disk>(
    alloc: Global,
    disk: &mut D,
    version: u8,
    kind: u8,
) -> Result<Vec<u8>, NewStoreError>
    requires { IsTrue (is_version version) }
    ensures room { IfOk result (λ commit. MAX_COMMIT ≤ vec_capacity commit) }
    ensures long { OnOk result (16 < D.len disk.new) }
    ensures made { D.honest → MatchResult result (λ _. Makes version kind None (D.state disk.old) (D.state disk.new))
        (λ e. Makes version kind (Some e) (D.state disk.old) (D.state disk.new)) }
    ensures later { D.faults disk.old ≤ D.faults disk.new }
    ensures fault { result ≡ Err NewStoreError.Fault → Rose (D.faults disk.old) (D.faults disk.new) }
{
    let Ok(front) = look(disk, kind) else {
        return Err(NewStoreError::Fault);
    };
    match front {
        Front::This => return Err(NewStoreError::Exists),
        Front::Other => return Err(NewStoreError::OtherKind),
        Front::Neither => {}
    }
    let Ok(commit) = Vec::with_capacity(alloc, MAX_COMMIT) else {
        return Err(NewStoreError::NoMemory);
    };
    match put_through(disk, 0, &empty_store(version, kind)) {
        Ok(()) => Ok(commit),
        Err(Failed) => Err(NewStoreError::Fault),
    }
}
