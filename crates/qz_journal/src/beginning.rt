//! A new journal that begins with payloads, and is open.
ghost use Rattle.std.specs.Prelude.{◌≡◌, ◌<◌, ◌≤◌, ◌∷◌, [], List as Items, ℕ, All, length, IsTrue, IfOk, IfErr, OnOk, OnErr, MatchResult, None, Some, Err, vec_capacity};
ghost use Rattle.qz_civil.specs.Causes.{Rose};
ghost use Rattle.qz_disk.specs.Disk.{Only, Stays, Torn, LeavesOnly};
ghost use Rattle.qz_journal.specs.Beginning.{LeadsToAll, IsNoneOrAll, Begins};
ghost use Rattle.qz_journal.specs.Commits.{HaveRoom};
ghost use Rattle.qz_journal.specs.Groups.{TakesAny};
ghost use Rattle.qz_journal.specs.Layout.{is_version, IsPayload, HasStore, Holds, end_of};
ghost use Rattle.qz_journal.specs.Making.{IsFoundNew, IsNew, IsMadeOr};
ghost use Rattle.qz_journal.specs.Through.{PutsThrough};
ghost use Rattle.qz_journal.specs.View.{payloads_of};
ghost use Rattle.qz_journal.specs.declared.layout.TheConstants.{MAX_COMMIT};

use crate::appending::put_through;
use crate::fronts::look;
use crate::layout::{HEADER_LENGTH, MAX_COMMIT, empty_store};
use crate::{Front, GROUP_LENGTH, Group, Journal, NewStoreError, Slots};
use qz_civil::{Failed, List};
use qz_disk::Disk;
use std::alloc::Global;

// What a header has for its kind until all of the store is there: no kind is that.
const NO_KIND: u8 = 0;

// Where a header has the kind.
const KIND_AT: u64 = 5;

impl<D: Disk> Journal<D> {
    /// Makes a journal of this version, 1 or 2, and this kind, `TRIGGERS` or `STATES`, that begins with these payloads, of which the
    /// first is the head of a snapshot, and whose slot A leads to it; and opens it without reading it back. The disk begins as no
    /// store does. The kind is written last into the header, so that there is no store until all of it is there; but the first write
    /// may leave any bytes in the first 17. All memory is taken before anything is written. An `Err` hands the disk back.
    pub fn begin(
        alloc: Global,
        mut disk: D,
        version: u8,
        kind: u8,
        payloads: &[List<u8>],
    ) -> Result<Journal<D>, (NewStoreError, D)>
        requires version { IsTrue (is_version version) }
        requires kind { 1 ≤ kind }
        requires sizes { All IsPayload payloads.now }
        requires room { HaveRoom payloads.now (end_of []) 0 }
        ensures new { IfOk result (λ j. (j.version ≡ version) × (j.kind ≡ kind) × (j.gate ≡ end_of payloads.now) × (j.count ≡ length payloads.now)
            × (j.closed ≡ None) × (j.slots ≡ record { a = Some 16; b = None })) }
        ensures begun { D.honest → MatchResult result (λ j. Begins version kind payloads.now None (D.state disk) (D.state j.disk))
            (λ e. Begins version kind payloads.now (Some e.0) (D.state disk) (D.state e.1)) }
        ensures later { MatchResult result (λ j. D.faults disk ≤ D.faults j.disk) (λ e. D.faults disk ≤ D.faults e.1) }
        ensures fault { IfErr result (λ e. e.0 ≡ NewStoreError.Fault → Rose (D.faults disk) (D.faults e.1)) }
    {
        match make_without_kind(alloc, &mut disk, version, kind) {
            Ok((commit, mut group)) => {
                let mut journal = Journal {
                    disk,
                    version,
                    kind: NO_KIND,
                    gate: HEADER_LENGTH as u64,
                    count: 0,
                    slots: Slots { a: None, b: None },
                    closed: None,
                    commit,
                };
                match journal.fill_in(&mut group, kind, payloads) {
                    Ok(()) => Ok(journal),
                    Err(Failed) => Err((NewStoreError::Fault, journal.into_disk())),
                }
            }
            Err(error) => Err((error, disk)),
        }
    }

    // Puts the payloads into a new journal, leads slot A to them, and writes the kind.
    fn fill_in(&mut self, group: &mut Group, kind: u8, payloads: &[List<u8>]) -> Result<(), Failed>
        requires new { (self.old.closed ≡ None) × (self.old.kind ≡ 0) × (self.old.gate ≡ end_of []) × (self.old.count ≡ 0) × (self.old.slots ≡ record { a = None; b = None }) }
        requires kind { 1 ≤ kind }
        requires group { (payloads_of group.old ≡ []) × TakesAny group.old }
        requires sizes { All IsPayload payloads.now }
        requires room { HaveRoom payloads.now (end_of []) 0 }
        ensures filled { OnOk result ((self.new.version ≡ self.old.version) × (self.new.kind ≡ kind) × (self.new.gate ≡ end_of payloads.now) × (self.new.count ≡ length payloads.now)
            × (self.new.closed ≡ None) × (self.new.slots ≡ record { a = Some 16; b = None })) }
        ensures later { D.faults self.old.disk ≤ D.faults self.new.disk }
        ensures fault { OnErr result (Rose (D.faults self.old.disk) (D.faults self.new.disk)) }
        ensures leads { D.honest → Holds (D.state self.old.disk).content self.old.version 0 [] → OnOk result (LeadsToAll self.old.version kind payloads.now (D.state self.new.disk).content) }
        ensures any_moment { D.honest → Holds (D.state self.old.disk).content self.old.version 0 []
            → LeavesOnly (D.state self.old.disk) (D.state self.new.disk) (IsNoneOrAll self.old.version kind payloads.now) }
    {
        self.append_all(group, payloads)?;
        if self.set_slot(HEADER_LENGTH as u64).is_err() {
            return Err(Failed);
        }
        self.name(kind)
    }

    // Writes the kind into the header of an open journal, and syncs.
    fn name(&mut self, kind: u8) -> Result<(), Failed>
        requires ready { self.old.closed ≡ None }
        ensures later { D.faults self.old.disk ≤ D.faults self.new.disk }
        ensures fault { OnErr result (Rose (D.faults self.old.disk) (D.faults self.new.disk)) }
        ensures same { (self.new.version ≡ self.old.version) × (self.new.gate ≡ self.old.gate) × (self.new.count ≡ self.old.count) × (self.new.slots ≡ self.old.slots) }
        ensures ok { OnOk result ((self.new.closed ≡ None) × (self.new.kind ≡ kind)) }
        ensures told { D.honest → PutsThrough 5 (kind ∷ []) result (D.state self.old.disk) (D.state self.new.disk) }
    {
        self.closed = Some(self.gate);
        put_through(&mut self.disk, KIND_AT, &[kind])?;
        self.kind = kind;
        self.closed = None;
        Ok(())
    }
}

// Writes the header of an empty store that has no kind yet, and takes the memory for one commit and one group.
fn make_without_kind<D: Disk>(
    alloc: Global,
    disk: &mut D,
    version: u8,
    kind: u8,
) -> Result<(Vec<u8>, Group), NewStoreError>
    requires { IsTrue (is_version version) }
    ensures room { IfOk result (λ r. MAX_COMMIT ≤ vec_capacity r.0) }
    ensures group { IfOk result (λ r. (payloads_of r.1 ≡ []) × TakesAny r.1) }
    ensures long { OnOk result (16 < D.len disk.new) }
    ensures found { D.honest → MatchResult result (λ _. IsFoundNew (D.state disk.old).content kind None) (λ e. IsFoundNew (D.state disk.old).content kind (Some e)) }
    ensures made { D.honest → MatchResult result (λ _. IsNew version 0 (D.state disk.old) (D.state disk.new)) (λ e. IsMadeOr version 0 (Some e) (D.state disk.old) (D.state disk.new)) }
    ensures kept { D.honest → HasStore kind (D.state disk.old).content → Stays (D.state disk.old) (D.state disk.new) × LeavesOnly (D.state disk.old) (D.state disk.new) (D.state disk.old).IsImage }
    ensures any_moment { D.honest → (bytes : Items ℕ) → Only bytes (D.state disk.old) → LeavesOnly (D.state disk.old) (D.state disk.new) (Torn 0 17 bytes) }
    ensures later { D.faults disk.old ≤ D.faults disk.new }
    ensures fault { result ≡ Err NewStoreError.Fault → Rose (D.faults disk.old) (D.faults disk.new) }
{
    let Ok(front) = look(disk, kind) else {
        return Err(NewStoreError::Fault);
    };
    match front {
        Front::This => return Err(NewStoreError::Exists),
        Front::Other => return Err(NewStoreError::OtherKind),
        Front::Neither => {}
    }
    let Ok(commit) = Vec::with_capacity(alloc, MAX_COMMIT) else {
        return Err(NewStoreError::NoMemory);
    };
    let Ok(group) = Group::with_capacity(alloc, GROUP_LENGTH) else {
        return Err(NewStoreError::NoMemory);
    };
    match put_through(disk, 0, &empty_store(version, NO_KIND)) {
        Ok(()) => Ok((commit, group)),
        Err(Failed) => Err(NewStoreError::Fault),
    }
}
