//! Openings from the slot in use on: where reading begins, what is found there, and how much is read.
use crate::rows::{Row, check};
use qz_civil::List;
use qz_disk::{Call, MemDisk};
use qz_journal::{Journal, MountError, TRIGGERS};
use std::alloc::{AllocError, Global};

/// What an opening finds: the offset at which it begins, how many payloads it reads, how many stand in all, and the gate after
/// them. Or why it fails.
type Found = Result<(u64, usize, u64, u64), MountError>;

/// The ten bytes of the slots of a store, the bytes after its header, and what an opening from the slot in use on finds.
type Opening = (&'static [u8; 10], &'static [u8], Found);

const SLOT_A: Found = Err(MountError::Damaged { at: 6 });

const SLOT_B: Found = Err(MountError::Damaged { at: 11 });

const NONE_OPEN: &[u8; 10] = &[0; 10];

/// A payload at 16, a head with one payload before it at 22, a piece at 32, a head with three before it at 39, a payload at 49
/// that is too short for a head, and a closed gate at 58, the last byte.
const BLOCKS: &[u8] =
    b"\xa5\0\0\0\x01\x07\xa5\0\0\0\x05\xf0\0\0\0\x01\xa5\0\0\0\x02\xf1\x07\xa5\0\0\0\x05\xf0\0\0\0\x03\xa5\0\0\0\x04\xf0\0\0\0\0";

/// No slot is open, or one is, or both are; a gate that isn't A5 closes a slot.
const STARTS: &[Opening] = &[
    (NONE_OPEN, BLOCKS, Ok((16, 5, 5, 58))),
    (b"\x5a\0\0\0\x16\xff\0\0\0\x16", BLOCKS, Ok((16, 5, 5, 58))),
    (b"\xa5\0\0\0\x16\0\0\0\0\0", BLOCKS, Ok((22, 4, 5, 58))),
    (b"\0\0\0\0\x16\xa5\0\0\0\x27", BLOCKS, Ok((39, 2, 5, 58))),
    (b"\xa5\0\0\0\x16\xa5\0\0\0\x27", BLOCKS, Ok((39, 2, 5, 58))),
    (b"\xa5\0\0\0\x27\xa5\0\0\0\x16", BLOCKS, Ok((39, 2, 5, 58))),
];

#[test]
fn the_greater_offset_is_where_reading_begins(rt: HostRuntime) -> Result<(), AllocError> {
    check(&rt, rt.alloc(), STARTS)
}

/// Offsets before the first gate, at the end and after it, and where no open gate stands or no head does; A where both are
/// equal.
const ASTRAY: &[Opening] = &[
    (b"\xa5\0\0\0\x0f\0\0\0\0\0", BLOCKS, SLOT_A),
    (b"\0\0\0\0\0\xa5\0\0\0\x3b", BLOCKS, SLOT_B),
    (b"\0\0\0\0\0\xa5\xff\xff\xff\xff", BLOCKS, SLOT_B),
    (b"\xa5\0\0\0\0\xa5\0\0\0\0", BLOCKS, SLOT_A),
    (b"\xa5\0\0\0\x17\0\0\0\0\0", BLOCKS, SLOT_A),
    (b"\0\0\0\0\0\xa5\0\0\0\x3a", BLOCKS, SLOT_B),
    (b"\xa5\0\0\0\x10\0\0\0\0\0", BLOCKS, SLOT_A),
    (b"\xa5\0\0\0\x20\0\0\0\0\0", BLOCKS, SLOT_A),
    (b"\0\0\0\0\0\xa5\0\0\0\x31", BLOCKS, SLOT_B),
    // A slot that leads astray counts before a bad place after it.
    (
        b"\xa5\0\0\0\x10\0\0\0\0\0",
        b"\xa5\0\0\0\x01\x07\xa5",
        SLOT_A,
    ),
];

#[test]
fn a_slot_that_leads_to_no_head_is_damaged(rt: HostRuntime) -> Result<(), AllocError> {
    check(&rt, rt.alloc(), ASTRAY)
}

/// A head that is cut, a bad gate after a head, and a bad gate before one, which isn't read.
const CUT: &[Opening] = &[
    (
        b"\xa5\0\0\0\x10\0\0\0\0\0",
        b"\xa5\0\0\0\x05\xf0\0\0\0",
        Err(MountError::Damaged { at: 16 }),
    ),
    (
        b"\xa5\0\0\0\x10\0\0\0\0\0",
        b"\xa5\0\0\0\x05\xf0\0\0\0\0\xa5\0",
        Err(MountError::Damaged { at: 26 }),
    ),
    (
        b"\xa5\0\0\0\x16\0\0\0\0\0",
        b"\x07\0\0\0\x01\x07\xa5\0\0\0\x05\xf0\0\0\0\x01\0",
        Ok((22, 1, 2, 32)),
    ),
];

#[test]
fn what_comes_before_the_slot_is_not_read(rt: HostRuntime) -> Result<(), AllocError> {
    check(&rt, rt.alloc(), CUT)
}

// How many bytes these calls read.
fn bytes_read(calls: &[Call]) -> u64 {
    let mut sum: u64 = 0;
    for call in calls {
        if let Call::Read { at: _, count } = call {
            sum = sum.saturating_add(*count as u64);
        }
    }
    sum
}

// A store of triggers with these slots and these bytes after its header.
fn store_of(alloc: Global, slots: &[u8; 10], blocks: &[u8]) -> Result<MemDisk, AllocError> {
    let mut bytes = Vec::from_slice(alloc, b"QZ23\x02T")?;
    bytes.extend_from_slice(slots)?;
    bytes.extend_from_slice(blocks)?;
    Ok(MemDisk::with_bytes(alloc, List::from_vec(bytes)))
}

impl Row for Opening {
    fn holds(&self, alloc: Global) -> Result<bool, AllocError> {
        let &(slots, blocks, found) = self;
        let disk = store_of(alloc, slots, blocks)?;
        match Journal::mount_tail(alloc, disk, TRIGGERS) {
            Ok((journal, start, payloads)) => {
                let is_found = found
                    == Ok((start, payloads.len(), journal.payloads(), journal.gate()));
                let disk = journal.into_disk();
                let most = (32 + blocks.len() as u64).saturating_sub(start);
                let is_read = bytes_read(disk.calls()) <= most;
                drop(disk);
                Ok(is_found && is_read)
            }
            Err((error, _)) => Ok(found == Err(error)),
        }
    }
}
