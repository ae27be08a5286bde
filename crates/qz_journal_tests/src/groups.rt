//! A group of payloads is there whole or not at all, at whichever device call the disk fails or a crash comes.
ghost use Rattle.std.specs.Prelude.{◌≤◌, length, IfSome};
ghost use Rattle.qz_journal.specs.View.{payloads_of};

use crate::journal::{HEADER, cut_disk, disk_of, is_write, restarts_with};
use crate::rows::{Row, check};
use qz_civil::List;
use qz_disk::{Call, Disk, FaultDisk, MemDisk};
use qz_journal::{AppendError, Group, Journal, JournalFull, TRIGGERS};
use std::alloc::{AllocError, Global};

// A list of these bytes.
fn bytes_of(alloc: Global, bytes: &[u8]) -> Option<List<u8>>
    ensures { IfSome result (λ l. length l ≤ length bytes.now × length bytes.now ≤ length l) }
{
    match Vec::from_slice(alloc, bytes) {
        Ok(bytes) => Some(List::from_vec(bytes)),
        Err(_) => None,
    }
}

// A group of `\x07` and `\x08\x09`.
fn two(alloc: Global) -> Option<Group>
    ensures { IfSome result (λ g. 1 ≤ length (payloads_of g)) }
{
    let first = bytes_of(alloc, b"\x07")?;
    let second = bytes_of(alloc, b"\x08\x09")?;
    let mut group = Group::new(alloc).ok()?;
    group.push(&first).ok()?;
    group.push(&second).ok()?;
    Some(group)
}

// Whether the group is answered so, and a fault closes the journal.
fn commits<D: Disk>(
    journal: &mut Journal<D>,
    group: &Group,
    answer: Result<(), AppendError>,
) -> bool
    requires { 1 ≤ length (payloads_of group.now) }
{
    journal.append_group(group) == answer
        && (answer.is_ok() || journal.append(b"\x0a") == Err(AppendError::Closed { at: 16 }))
}

// Whether a new store on this disk takes the group so, and a crash and a restart leave payloads of these lengths.
fn is_left_on<D: Disk>(
    alloc: Global,
    disk: D,
    answer: Result<(), AppendError>,
    lengths: &[usize],
) -> bool {
    let Some(group) = two(alloc) else {
        return false;
    };
    let Ok((mut journal, _)) = Journal::mount(alloc, disk, TRIGGERS) else {
        return false;
    };
    let is_right = commits(&mut journal, &group, answer)
        && restarts_with(alloc, &mut journal, lengths);
    drop(journal);
    is_right
}

/// How many calls pass after the four of an opening, until the disk is cut off; the bytes after the header that come up at a
/// crash; what the group is answered then; and the lengths of the payloads that a restart finds.
#[derive(Debug)]
struct Cut(u8, &'static [u8], Result<(), AppendError>, &'static [usize]);

impl Row for Cut {
    fn holds(&self, alloc: Global) -> Result<bool, AllocError> {
        let &Cut(passes, image, answer, lengths) = self;
        let disk = cut_disk(alloc, passes, image)?;
        Ok(is_left_on(alloc, disk, answer, lengths))
    }
}

const FAULT: Result<(), AppendError> = Err(AppendError::Fault);

/// What is no image is passed over, and the bytes come up as they were written.
const NO_IMAGE: &[u8] = b"";

const CUTS: &[Cut] = &[
    Cut(0, NO_IMAGE, FAULT, &[]),
    Cut(1, NO_IMAGE, FAULT, &[]),
    Cut(1, b"\0\xa5\xa5\xa5", FAULT, &[]),
    Cut(2, NO_IMAGE, FAULT, &[]),
    Cut(2, b"\xa5\0\0\0\x01\x07\xa5\0\0\0\x02\x08\x09\0", FAULT, &[]),
    Cut(3, NO_IMAGE, FAULT, &[1, 2]),
    Cut(3, b"\0\0\0\0\x01\x07\xa5\0\0\0\x02\x08\x09\0", FAULT, &[]),
    Cut(3, b"\x25\0\0\0\x01\x07\xa5\0\0\0\x02\x08\x09\0", FAULT, &[]),
    Cut(4, NO_IMAGE, Ok(()), &[1, 2]),
    Cut(
        4,
        b"\0\0\0\0\x01\x07\xa5\0\0\0\x02\x08\x09\0",
        Ok(()),
        &[1, 2],
    ),
];

#[test]
fn a_group_that_is_cut_is_there_whole_or_not(rt: HostRuntime) -> Result<(), AllocError> {
    check(&rt, rt.alloc(), CUTS)
}

/// Which call after the four of an opening fails, from 1 (there are no 200); what the group is answered; and the lengths of the
/// payloads that a restart finds.
type Failure = (u8, Result<(), AppendError>, &'static [usize]);

impl Row for Failure {
    fn holds(&self, alloc: Global) -> Result<bool, AllocError> {
        let &(call, answer, lengths) = self;
        let failing = List::from_vec(Vec::from_slice(alloc, &[4 + u64::from(call)])?);
        let disk = FaultDisk::new(disk_of(alloc, HEADER, b"\0")?, failing);
        Ok(is_left_on(alloc, disk, answer, lengths))
    }
}

const FAILURES: &[Failure] = &[
    (1, FAULT, &[]),
    (2, FAULT, &[]),
    (3, FAULT, &[]),
    (4, FAULT, &[1, 2]),
    (200, Ok(()), &[1, 2]),
];

#[test]
fn a_group_whose_call_fails_is_there_whole_or_not(rt: HostRuntime) -> Result<(), AllocError> {
    check(&rt, rt.alloc(), FAILURES)
}

// Whether these are the four calls of the group: all bodies, a sync, the gate, a sync.
fn are_those_of_two(calls: &[Call]) -> bool {
    match calls {
        [bodies, Call::Sync, gate, Call::Sync] => {
            is_write(bodies, 17, b"\0\0\0\x01\x07\xa5\0\0\0\x02\x08\x09\0")
                && is_write(gate, 16, b"\xa5")
        }
        _ => false,
    }
}

fn two_make_four_calls(alloc: Global) -> Option<bool> {
    let disk = disk_of(alloc, HEADER, b"\0").ok()?;
    let group = two(alloc)?;
    let Ok((mut journal, _)) = Journal::mount(alloc, disk, TRIGGERS) else {
        return None;
    };
    let is_added = journal.append_group(&group).is_ok();
    let is_placed = journal.gate() == 29 && journal.payloads() == 2;
    let disk = journal.into_disk();
    let calls = disk.calls();
    let is_right = calls.len() == 8 && are_those_of_two(&calls[4..]);
    drop(disk);
    Some(is_added && is_placed && is_right)
}

#[test]
fn a_group_makes_four_device_calls(rt: HostRuntime) {
    assert!(rt; two_make_four_calls(rt.alloc()) == Some(true));
}

// Whether the group, which needs 13 bytes, has room at these places; and an emptied one needs none.
fn has_room_at_the_limits(alloc: Global) -> Option<bool> {
    let mut group = two(alloc)?;
    let is_full = group.fits(536870900, 3) == Err(JournalFull { need: 13, room: 11 })
        && group.fits(16, 8388607) == Err(JournalFull { need: 13, room: 0 });
    let has_room = group.fits(536870898, 3) == Ok(()) && group.fits(16, 8388606) == Ok(());
    group.clear();
    let is_none = group.len() == 0 && group.need() == 0;
    Some(is_full && has_room && is_none)
}

#[test]
fn the_room_of_a_group_ends_at_the_limits(rt: HostRuntime) {
    assert!(rt; has_room_at_the_limits(rt.alloc()) == Some(true));
}
