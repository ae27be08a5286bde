//! The first bytes of a trigger store.
ghost use Rattle.std.specs.Prelude.{◌≡◌, ◌↔◌, ◌+◌, ◌<◌, ◌≤◌, IsTrue, IfSome, IfNone, slice_index, length};
ghost use Rattle.qz_journal.specs.Slots.{slot, slots_of};
ghost use Rattle.qz_stream.specs.Front.{IsFrontByte, MayBegin, IsBadFront, IsVersionOf};

use crate::blocks::OPEN_GATE;
use qz_journal::{Slots, TRIGGERS};

/// The length of the header, in bytes.
pub(crate) const HEADER_LENGTH: usize = 16;

// How many bytes of the header are the same in all stores of a version.
const FRONT_LENGTH: usize = 6;

// The places of the gates of both slots. Four bytes with an offset follow each.
const SLOT_A: usize = 6;

const SLOT_B: usize = 11;

// Whether a trigger store has this byte at this offset.
fn is_front_byte(at: usize, byte: u8) -> bool
    requires { at < FRONT_LENGTH }
    ensures { IsTrue result ↔ IsFrontByte at byte }
{
    match at {
        0 => byte == b'Q',
        1 => byte == b'Z',
        2 => byte == b'2',
        3 => byte == b'3',
        4 => byte == 1 || byte == 2,
        _ => byte == TRIGGERS,
    }
}

/// The offset of the first byte that no trigger store has there, of the first six.
pub(crate) fn first_bad(bytes: &[u8]) -> Option<usize>
    ensures some { IfSome result (IsBadFront bytes.now) }
    ensures none { IfNone result (MayBegin bytes.now) }
{
    let end = bytes.len().min(FRONT_LENGTH);
    for at in 0..end {
        if !is_front_byte(at, bytes[at]) {
            return Some(at);
        }
    }
    None
}

/// The version, where the first five bytes are there and right.
pub(crate) fn version_of(bytes: &[u8]) -> Option<u8>
    ensures { IsVersionOf bytes.now result }
{
    if bytes.len() < 5 {
        return None;
    }
    match first_bad(&bytes[..5]) {
        Some(_) => None,
        None => Some(bytes[4]),
    }
}

/// The slots of a header that is whole.
pub(crate) fn slots_in(header: &[u8]) -> Slots
    requires { HEADER_LENGTH ≤ length header.now }
    ensures { result ≡ slots_of header.now }
{
    Slots {
        a: slot_at(header, SLOT_A),
        b: slot_at(header, SLOT_B),
    }
}

// The offset of the slot whose gate is at this place, if the gate is open.
#[tactic(auto, unfolding(qz_journal::specs::Slots::slot))]
fn slot_at(header: &[u8], gate: usize) -> Option<u32>
    requires { gate + 5 ≤ length header.now }
    ensures { result ≡ slot gate header.now }
{
    if header[gate] != OPEN_GATE {
        return None;
    }
    let (_, behind) = header.split_at(gate + 1);
    let (number, _) = behind.split_at(4);
    Some(u32::from_be_bytes([number[0], number[1], number[2], number[3]]))
}
