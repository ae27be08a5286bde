//! The two slots of the header.
ghost use Rattle.std.specs.Prelude.{◌≡◌, ◌+◌, ◌≤◌};
ghost use Rattle.qz_journal.specs.Slots.{slot, slots_of, slot_in_use, free_slot, offset_in, with_offset};
ghost use Rattle.qz_journal.specs.Tails.{start_of};

use crate::layout::{HEADER_LENGTH, OPEN_GATE};

// The place of the gate of slot A. Four bytes with its offset follow.
pub(crate) const SLOT_A: u64 = 6;

// The place of the gate of slot B.
pub(crate) const SLOT_B: u64 = 11;

/// The offsets, in bytes, of the two slots of a header, each where its gate is open.
#[derive(Clone, Copy, PartialEq, Eq, Debug)]
pub struct Slots {
    /// Of slot A, whose gate is at 6.
    pub a: Option<u32>,
    /// Of slot B, whose gate is at 11.
    pub b: Option<u32>,
}

impl Slots {
    /// The place of the gate of the slot in use: of the open ones it is that with the greater offset, A if they are equal.
    /// None where no slot is open.
    pub fn in_use(&self) -> Option<u64>
        ensures { result ≡ slot_in_use self.now }
    {
        match (self.a, self.b) {
            (None, None) => None,
            (Some(_), None) => Some(SLOT_A),
            (None, Some(_)) => Some(SLOT_B),
            (Some(a), Some(b)) => Some(if a < b { SLOT_B } else { SLOT_A }),
        }
    }

    /// The place of the gate of the slot that isn't in use, A where none is open.
    pub fn free(&self) -> u64
        ensures { result ≡ free_slot self.now }
    {
        match self.in_use() {
            None => SLOT_A,
            Some(gate) => { if gate == SLOT_A { SLOT_B } else { SLOT_A } }
        }
    }

    // Where an opening of the tail begins to read payloads: at the offset of the slot in use, or at the first gate.
    pub(crate) fn start(&self) -> u64
        ensures { result ≡ start_of self.now }
    {
        let Some(gate) = self.in_use() else {
            return HEADER_LENGTH as u64;
        };
        match self.offset(gate) {
            Some(offset) => u64::from(offset),
            None => HEADER_LENGTH as u64,
        }
    }

    // The offset of the slot whose gate is at this place.
    pub(crate) fn offset(&self, gate: u64) -> Option<u32>
        ensures { result ≡ offset_in self.now gate }
    {
        if gate == SLOT_A { self.a } else { self.b }
    }

    // The slots with this offset, or none, in the one whose gate is at this place.
    pub(crate) fn with(self, gate: u64, offset: Option<u32>) -> Slots
        ensures { result ≡ with_offset gate offset self }
    {
        if gate == SLOT_A {
            Slots {
                a: offset,
                b: self.b,
            }
        } else {
            Slots {
                a: self.a,
                b: offset,
            }
        }
    }
}

// The slots in these first bytes of a store.
pub(crate) fn slots_in(front: &[u8; HEADER_LENGTH]) -> Slots
    ensures { result ≡ slots_of front.now }
{
    Slots {
        a: slot_at(front, SLOT_A as usize),
        b: slot_at(front, SLOT_B as usize),
    }
}

// The offset of the slot whose gate is at this place, if the gate is open.
#[tactic(auto, unfolding(crate::specs::Slots::slot))]
fn slot_at(front: &[u8; HEADER_LENGTH], gate: usize) -> Option<u32>
    requires { gate + 5 ≤ HEADER_LENGTH }
    ensures { result ≡ slot gate front.now }
{
    if front[gate] != OPEN_GATE {
        return None;
    }
    let (_, behind) = front.split_at(gate + 1);
    let (number, _) = behind.split_at(4);
    Some(u32::from_be_bytes([number[0], number[1], number[2], number[3]]))
}
