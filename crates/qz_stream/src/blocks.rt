//! The block at a gate, as far as its bytes are there.
ghost use Rattle.std.specs.Prelude.{◌≡◌, ◌↔◌, ◌+◌, ◌<◌, ◌≤◌, ◌++◌, ℕ, List, IsTrue, length};
ghost use Rattle.qz_stream.specs.Blocks.{announced, MayFollow, IsUnfinished, IsNoLonger};
ghost use Rattle.qz_stream.specs.Standing.{IsFound};

use crate::place::Place;
use qz_journal::MAX_PAYLOAD;

/// The most bytes that a store has, header included.
pub(crate) const MAX_BYTES: u64 = 1 << 29;

pub(crate) const OPEN_GATE: u8 = 0xa5;

// How many bytes say a payload's length.
const SIZE_LENGTH: usize = 4;

/// The length of the longest block, in bytes: a gate, a length and a payload.
pub(crate) const MAX_BLOCK: usize = 1 + SIZE_LENGTH + MAX_PAYLOAD;

// The length that the bytes after a gate announce.
fn announced(behind: &[u8]) -> u32
    requires { SIZE_LENGTH ≤ length behind.now }
    ensures { result ≡ announced behind.now }
{
    u32::from_be_bytes([behind[0], behind[1], behind[2], behind[3]])
}

// Whether a payload of this length may follow an open gate at this offset. The number of payloads isn't looked at.
fn may_follow(gate: u64, size: u32) -> bool
    ensures { IsTrue result ↔ MayFollow gate size }
{
    // the bytes after the gate
    let room = (MAX_BYTES - 1).saturating_sub(gate);
    size >= 1 && size as usize <= MAX_PAYLOAD && u64::from(size) + 5 <= room
}

/// What the bytes from a gate on are.
pub(crate) fn find_block(gate: u64, tail: &[u8]) -> Place
    requires { IsNoLonger gate tail.now }
    ensures { IsFound result gate tail.now }
{
    let Some((first, behind)) = tail.split_first() else {
        return Place::Block;
    };
    if *first != OPEN_GATE {
        return Place::Ended;
    }
    if behind.len() < SIZE_LENGTH {
        return Place::Block;
    }
    let size = announced(behind);
    if !may_follow(gate, size) {
        return Place::Bad;
    }
    if behind.len() - SIZE_LENGTH < size as usize {
        return Place::Block;
    }
    Place::Whole
}

/// How many bytes may be read before the block is looked at again.
pub(crate) fn wanted(gate: u64, tail: &[u8]) -> usize
    requires { IsUnfinished gate tail.now }
    ensures some { 1 ≤ result }
    ensures short { length tail.now + result ≤ MAX_BLOCK }
    ensures no_longer { (more : List ℕ) → length more ≤ result → IsNoLonger gate (tail.now ++ more) }
{
    let Some((_, behind)) = tail.split_first() else {
        return 1;
    };
    if behind.len() < SIZE_LENGTH {
        return SIZE_LENGTH - behind.len();
    }
    SIZE_LENGTH + announced(behind) as usize - behind.len()
}
