//! The free slot is cleared and set, also where a crash tears a write.
use crate::rows::{Row, check};
use qz_civil::{List, beside};
use qz_disk::{Call, CutDisk, Disk, MemDisk};
use qz_journal::{AppendError, Journal, Slots, TRIGGERS};
use std::alloc::{AllocError, Global};

// A store of triggers with these slots, a head at 16 and a closed gate at 26.
fn bytes_of(alloc: Global, slots: &[u8]) -> Result<List<u8>, AllocError> {
    let mut bytes = Vec::from_slice(alloc, b"QZ23\x02T")?;
    bytes.extend_from_slice(slots)?;
    bytes.extend_from_slice(b"\xa5\0\0\0\x05\xf0\0\0\0\0\0")?;
    Ok(List::from_vec(bytes))
}

// The disk of such a store.
fn disk_of(alloc: Global, slots: &[u8]) -> Result<MemDisk, AllocError> {
    Ok(MemDisk::with_bytes(alloc, bytes_of(alloc, slots)?))
}

// What clearing and then setting the free slot to this offset answers.
fn mark<D: Disk>(journal: &mut Journal<D>, offset: u32) -> Result<(), AppendError> {
    journal.clear_slot()?;
    journal.set_slot(u64::from(offset))
}

fn is_write(call: &Call, offset: u64, payload: &[u8]) -> bool {
    matches!(call, Call::Write { at, bytes } if *at == offset && bytes.as_slice() == payload)
}

// Whether these are the calls of setting a slot: the offset, a sync, the gate, a sync.
fn sets(calls: &[Call], gate: u8, offset: &[u8; 4]) -> bool {
    let gate = u64::from(gate);
    match calls {
        [number, Call::Sync, open, Call::Sync] => {
            is_write(number, gate + 1, offset) && is_write(open, gate, b"\xa5")
        }
        _ => false,
    }
}

// Whether these are the calls of clearing a slot: its gate, and a sync.
fn clears(calls: &[Call], gate: u64) -> bool {
    match calls {
        [close, Call::Sync] => is_write(close, gate, b"\0"),
        _ => false,
    }
}

// The slots that are in use after one mark, two and three, and the calls of the three.
fn marks_three_times(alloc: Global) -> Result<bool, AllocError> {
    let disk = disk_of(alloc, CLOSED)?;
    let Ok((mut journal, _)) = Journal::mount(alloc, disk, TRIGGERS) else {
        return Ok(false);
    };
    let is_first = mark(&mut journal, 16).is_ok() && journal.slot() == Some(6);
    let is_second = mark(&mut journal, 17).is_ok() && journal.slot() == Some(11);
    let is_third = mark(&mut journal, 18).is_ok() && journal.slot() == Some(6);
    let slots = journal.slots();
    let disk = journal.into_disk();
    let calls = disk.calls();
    let is_right = calls.len() == 18
        && sets(&calls[4..8], 6, b"\0\0\0\x10")
        && sets(&calls[8..12], 11, b"\0\0\0\x11")
        && clears(&calls[12..14], 6)
        && sets(&calls[14..], 6, b"\0\0\0\x12");
    drop(disk);
    let are_both = slots.a == Some(18) && slots.b == Some(17);
    Ok(is_first && is_second && is_third && is_right && are_both)
}

#[test]
fn the_slots_take_turns(rt: HostRuntime) -> Result<(), AllocError> {
    assert!(rt; marks_three_times(rt.alloc())?);
    Ok(())
}

/// The slots of a store; how many calls pass after the four of an opening, until the disk fails; the slots that come up at a
/// crash; what clearing the free slot and setting it to 16 answers; and the slots that a restart finds.
type Cut = (
    &'static [u8; 10],
    u8,
    &'static [u8],
    Result<(), AppendError>,
    (Option<u32>, Option<u32>),
);

const FAULT: Result<(), AppendError> = Err(AppendError::Fault);

/// What is no image is passed over, and the bytes come up as they were written.
const NO_IMAGE: &[u8] = b"";

const CLOSED: &[u8; 10] = &[0; 10];

const BOTH: &[u8; 10] = b"\xa5\0\0\0\x10\xa5\0\0\0\x14";

const CUTS: &[Cut] = &[
    (CLOSED, 0, NO_IMAGE, FAULT, (None, None)),
    (CLOSED, 1, NO_IMAGE, FAULT, (None, None)),
    (
        CLOSED,
        1,
        b"\0\xff\xff\xff\xff\0\0\0\0\0",
        FAULT,
        (None, None),
    ),
    (CLOSED, 2, b"\xa5\0\0\0\x10\0\0\0\0\0", FAULT, (None, None)),
    (CLOSED, 3, NO_IMAGE, FAULT, (Some(16), None)),
    (CLOSED, 3, b"\x25\0\0\0\x10\0\0\0\0\0", FAULT, (None, None)),
    (CLOSED, 4, NO_IMAGE, Ok(()), (Some(16), None)),
    (
        CLOSED,
        4,
        b"\0\0\0\0\x10\0\0\0\0\0",
        Ok(()),
        (Some(16), None),
    ),
    (BOTH, 0, NO_IMAGE, FAULT, (Some(16), Some(20))),
    (BOTH, 1, NO_IMAGE, FAULT, (None, Some(20))),
    (
        BOTH,
        1,
        b"\xa5\0\0\0\x10\xa5\0\0\0\x14",
        FAULT,
        (Some(16), Some(20)),
    ),
    (
        BOTH,
        1,
        b"\x21\0\0\0\x10\xa5\0\0\0\x14",
        FAULT,
        (None, Some(20)),
    ),
    (BOTH, 2, NO_IMAGE, FAULT, (None, Some(20))),
    (BOTH, 6, NO_IMAGE, Ok(()), (Some(16), Some(20))),
];

// A store's disk that is cut so.
fn cut_disk(alloc: Global, cut: &Cut) -> Result<CutDisk<MemDisk>, AllocError> {
    let &(slots, passes, brought_up, _, _) = cut;
    let image = bytes_of(alloc, brought_up)?;
    let mut images = List::new(alloc);
    images.push(image)?;
    let (images, mut disk) = beside(images, disk_of(alloc, slots))?;
    disk.choose(images);
    Ok(CutDisk::new(disk, 4 + u64::from(passes)))
}

// Whether a mark is answered so, a fault closes the journal, and a crash and a restart leave these slots and the payload.
fn is_cut_on<D: Disk>(alloc: Global, disk: D, cut: &Cut) -> bool {
    let Ok((mut journal, _)) = Journal::mount(alloc, disk, TRIGGERS) else {
        return false;
    };
    let answer = mark(&mut journal, 16);
    let is_closed = journal.clear_slot() == Err(AppendError::Closed { at: 26 });
    let is_again = journal.crash().is_ok()
        && matches!(journal.remount(alloc), Ok(payloads) if payloads.len() == 1);
    let Slots { a, b } = journal.slots();
    drop(journal);
    answer == cut.3 && is_closed == answer.is_err() && is_again && (a, b) == cut.4
}

impl Row for Cut {
    fn holds(&self, alloc: Global) -> Result<bool, AllocError> {
        let disk = cut_disk(alloc, self)?;
        Ok(is_cut_on(alloc, disk, self))
    }
}

#[test]
fn a_slot_that_is_cut_is_closed_or_whole(rt: HostRuntime) -> Result<(), AllocError> {
    check(&rt, rt.alloc(), CUTS)
}
