//! Many payloads more, in groups.
ghost use Rattle.std.specs.Prelude.{◌≡◌, ◌+◌, ◌<◌, ◌≤◌, ◌++◌, [], List as Items, ℕ, All, length, take, OnOk, OnErr, None, Some};
ghost use Rattle.qz_civil.specs.Causes.{Rose};
ghost use Rattle.qz_disk.specs.Disk.{LeavesOnly};
ghost use Rattle.qz_journal.specs.Commits.{HaveRoom};
ghost use Rattle.qz_journal.specs.Layout.{IsPayload, Holds, HoldFirst, IsWithoutOrWithAll, blocks, end_of};
ghost use Rattle.qz_journal.specs.View.{payloads_of, capacity_of};
ghost use Rattle.qz_journal.specs.declared.layout.TheConstants.{MAX_BLOCK};

use crate::{Group, Journal};
use qz_civil::{Failed, List};
use qz_disk::Disk;

/// How many bytes a group of many payloads is given.
pub const GROUP_LENGTH: usize = 1 << 18;

impl<D: Disk> Journal<D> {
    /// Adds these payloads to an open journal in which they have room. They go out in groups, each as `append_group` does it, with as
    /// many of them as the group has memory for. It has none before, and memory for each of them alone, so no memory is taken
    /// here. `Failed` is answered only where the disk's count of faults rose; then the journal is closed.
    pub fn append_all(&mut self, group: &mut Group, payloads: &[List<u8>]) -> Result<(), Failed>
        requires ready { self.old.closed ≡ None }
        requires none { payloads_of group.old ≡ [] }
        requires wide { MAX_BLOCK < capacity_of group.old }
        requires sizes { All IsPayload payloads.now }
        requires room { HaveRoom payloads.now self.old.gate self.old.count }
        ensures later { D.faults self.old.disk ≤ D.faults self.new.disk }
        ensures fault { OnErr result (Rose (D.faults self.old.disk) (D.faults self.new.disk) × (self.new.closed ≡ Some self.new.gate)) }
        ensures same { (self.new.version ≡ self.old.version) × (self.new.kind ≡ self.old.kind) × (self.new.slots ≡ self.old.slots) }
        ensures more { self.old.count ≤ self.new.count }
        ensures ok { OnOk result ((self.new.closed ≡ None) × (self.new.gate ≡ self.old.gate + length (blocks payloads.now)) × (self.new.count ≡ self.old.count + length payloads.now)) }
        ensures reads_nothing { D.honest → (D.state self.new.disk).bytes_read ≡ (D.state self.old.disk).bytes_read }
        // Where the content holds payloads that end at the gate: at `Ok` it holds these and then all of the new ones.
        ensures stands { D.honest → (all : Items (Items ℕ)) → Holds (D.state self.old.disk).content self.old.version self.old.kind all
            → self.old.gate ≡ end_of all
            → OnOk result (Holds (D.state self.new.disk).content self.old.version self.old.kind (all ++ payloads.now)) }
        // A crash at any moment leaves the first of them.
        ensures any_moment { D.honest → (all : Items (Items ℕ)) → Holds (D.state self.old.disk).content self.old.version self.old.kind all
            → self.old.gate ≡ end_of all
            → LeavesOnly (D.state self.old.disk) (D.state self.new.disk) (HoldFirst self.old.version self.old.kind all payloads.now) }
        // No byte before the gate changes.
        ensures front { D.honest → LeavesOnly (D.state self.old.disk) (D.state self.new.disk) (λ b. take self.old.gate b ≡ take self.old.gate (D.state self.old.disk).content) }
    {
        let mut start = 0;
        'groups: while start < payloads.len() {
            let many = fill(group, &payloads[start..]);
            self.append_filled(group)?;
            start += many;
        }
        Ok(())
    }

    // Adds the payloads of a group to an open journal in which they have room, and empties the group.
    fn append_filled(&mut self, group: &mut Group) -> Result<(), Failed>
        requires ready { self.old.closed ≡ None }
        requires some { 1 ≤ length (payloads_of group.old) }
        requires room { HaveRoom (payloads_of group.old) self.old.gate self.old.count }
        ensures emptied { OnOk result (payloads_of group.new ≡ []) }
        ensures capacity { capacity_of group.old ≤ capacity_of group.new }
        ensures later { D.faults self.old.disk ≤ D.faults self.new.disk }
        ensures fault { OnErr result (Rose (D.faults self.old.disk) (D.faults self.new.disk) × (self.new.closed ≡ Some self.new.gate)) }
        ensures same { (self.new.version ≡ self.old.version) × (self.new.kind ≡ self.old.kind) × (self.new.slots ≡ self.old.slots) }
        ensures more { self.old.count ≤ self.new.count }
        ensures ok { OnOk result ((self.new.closed ≡ None) × (self.new.gate ≡ self.old.gate + length (blocks (payloads_of group.old))) × (self.new.count ≡ self.old.count + length (payloads_of group.old))) }
        ensures reads_nothing { D.honest → (D.state self.new.disk).bytes_read ≡ (D.state self.old.disk).bytes_read }
        ensures stands { D.honest → (all : Items (Items ℕ)) → Holds (D.state self.old.disk).content self.old.version self.old.kind all
            → self.old.gate ≡ end_of all
            → OnOk result (Holds (D.state self.new.disk).content self.old.version self.old.kind (all ++ payloads_of group.old)) }
        ensures any_moment { D.honest → (all : Items (Items ℕ)) → Holds (D.state self.old.disk).content self.old.version self.old.kind all
            → self.old.gate ≡ end_of all
            → LeavesOnly (D.state self.old.disk) (D.state self.new.disk) (IsWithoutOrWithAll self.old.version self.old.kind all (payloads_of group.old)) }
        ensures front { D.honest → LeavesOnly (D.state self.old.disk) (D.state self.new.disk) (λ b. take self.old.gate b ≡ take self.old.gate (D.state self.old.disk).content) }
    {
        match self.append_group(group) {
            Ok(()) => {
                group.clear();
                Ok(())
            }
            // The journal is open, and the payloads have room.
            Err(_) => Err(Failed),
        }
    }
}

// Puts the first of these payloads into a group that has none, as many as it has memory for: one at least.
fn fill(group: &mut Group, payloads: &[List<u8>]) -> usize
    requires none { payloads_of group.old ≡ [] }
    requires wide { MAX_BLOCK < capacity_of group.old }
    requires some { 1 ≤ length payloads.now }
    requires sizes { All IsPayload payloads.now }
    ensures some { 1 ≤ result }
    ensures within { result ≤ length payloads.now }
    ensures first { payloads_of group.new ≡ take result payloads.now }
    ensures capacity { capacity_of group.old ≤ capacity_of group.new }
{
    for place in 0..payloads.len() {
        if !group.takes(&payloads[place]) {
            return place;
        }
        group.push_reserved(&payloads[place]);
    }
    payloads.len()
}
