//! Worked examples: stores that are whole, damaged or of another kind, the room that is left, and a commit that is cut.
use crate::rows::{Row, check};
use qz_civil::{List, beside};
use qz_disk::{Call, CutDisk, Disk, FaultDisk, MemDisk};
use qz_journal::{
    AppendError, CreateError, Journal, JournalFull, MountError, STATES, TRIGGERS, create,
    create_version, fits,
};
use std::alloc::{AllocError, Global};

pub(crate) const HEADER: &[u8] = b"QZ23\x02T\0\0\0\0\0\0\0\0\0\0";

const OLD_HEADER: &[u8] = b"QZ23\x01T\0\0\0\0\0\0\0\0\0\0";

pub(crate) fn joined(alloc: Global, front: &[u8], behind: &[u8]) -> Result<List<u8>, AllocError> {
    let mut bytes = Vec::from_slice(alloc, front)?;
    bytes.extend_from_slice(behind)?;
    Ok(List::from_vec(bytes))
}

// A disk with these two pieces.
pub(crate) fn disk_of(alloc: Global, front: &[u8], behind: &[u8]) -> Result<MemDisk, AllocError> {
    Ok(MemDisk::with_bytes(alloc, joined(alloc, front, behind)?))
}

// Whether the payloads have these lengths.
fn have_lengths(payloads: &[List<u8>], lengths: &[usize]) -> bool {
    for (place, payload) in payloads.iter().enumerate() {
        if lengths.get(place) != Some(&payload.len()) {
            return false;
        }
    }
    payloads.len() == lengths.len()
}

/// The lengths of the payloads that an opening finds, or why there are none.
type Found = Result<&'static [usize], MountError>;

// Whether an opening finds that.
fn opens_as<D: Disk>(alloc: Global, disk: D, found: &Found) -> bool {
    match Journal::mount(alloc, disk, TRIGGERS) {
        Ok((_, payloads)) => {
            matches!(found, Ok(lengths) if have_lengths(payloads.as_slice(), lengths))
        }
        Err((error, _)) => *found == Err(error),
    }
}

/// The two pieces of a disk's bytes, and what an opening of it finds.
type Opening = (&'static [u8], &'static [u8], Found);

impl Row for Opening {
    fn holds(&self, alloc: Global) -> Result<bool, AllocError> {
        let &(front, behind, found) = self;
        let disk = disk_of(alloc, front, behind)?;
        Ok(opens_as(alloc, disk, &found))
    }
}

const ANY_BYTES: &[u8] = b"\0and any bytes";

const NOT_A_STORE: Found = Err(MountError::NotAStore);

/// No header, half of one, one of the other kind, ones of other versions, and whole ones, of which two have bytes in a slot.
const HEADERS: &[Opening] = &[
    (b"", ANY_BYTES, NOT_A_STORE),
    (b"QZ23\x01", ANY_BYTES, NOT_A_STORE),
    (b"QZ23\x01S\0\0\0\0\0\0\0\0\0\0", ANY_BYTES, NOT_A_STORE),
    (b"QZ23\x00T\0\0\0\0\0\0\0\0\0\0", ANY_BYTES, NOT_A_STORE),
    (b"QZ23\x03T\0\0\0\0\0\0\0\0\0\0", ANY_BYTES, NOT_A_STORE),
    (b"QZ23\x01T\0\0\0\0\0\0\0\0\0", b"", NOT_A_STORE),
    (b"QZ23\x01T\0\0\0\0\0\0\0\0\0\x01", ANY_BYTES, Ok(&[])),
    (b"QZ23\x02T\xa5\0\0\0\x10\0\0\0\0\0", ANY_BYTES, Ok(&[])),
    (HEADER, ANY_BYTES, Ok(&[])),
    (OLD_HEADER, ANY_BYTES, Ok(&[])),
    (OLD_HEADER, b"\xa5\0\0\0\x01\x07\0", Ok(&[1])),
];

#[test]
fn the_header_decides_whether_it_is_a_store(rt: HostRuntime) -> Result<(), AllocError> {
    check(&rt, rt.alloc(), HEADERS)
}

const DAMAGED_AT_16: Found = Err(MountError::Damaged { at: 16 });

const DAMAGED_AT_22: Found = Err(MountError::Damaged { at: 22 });

const PAYLOADS: &[Opening] = &[
    (HEADER, b"", DAMAGED_AT_16),
    (HEADER, b"\xa5\0\0\0\x10\x01\x02\x03", DAMAGED_AT_16),
    (HEADER, b"\0any bytes", Ok(&[])),
    (HEADER, b"\x5a", Ok(&[])),
    (HEADER, b"\xff", Ok(&[])),
    (HEADER, b"\xa5\0\0\0\x01\x07", DAMAGED_AT_22),
    (HEADER, b"\xa5\0\0\0\x01\x07\xa5", DAMAGED_AT_22),
    (HEADER, b"\xa5\0\0\0\x01\x07\xa5\0\0", DAMAGED_AT_22),
    (HEADER, b"\xa5\0\0\0\x01\x07\xa5\0\0\0\0\0", DAMAGED_AT_22),
    (HEADER, b"\xa5\0\0\0\x01\x07\xa5\0\0\x80\x01", DAMAGED_AT_22),
    (HEADER, b"\xa5\0\0\0\x01\x07\x5a\xa5", Ok(&[1])),
    (
        HEADER,
        b"\xa5\0\0\0\x01\x07\xa5\0\0\0\x02\x08\x09\0",
        Ok(&[1, 2]),
    ),
];

#[test]
fn the_least_bad_place_is_answered(rt: HostRuntime) -> Result<(), AllocError> {
    check(&rt, rt.alloc(), PAYLOADS)
}

#[test]
fn the_room_ends_at_the_limits(rt: HostRuntime) {
    let full = |need, room| Err(JournalFull { need, room });
    assert!(rt; fits(536870906, 3, 34) == full(39, 5));
    assert!(rt; fits(16, 8388608, 34) == full(39, 0));
    assert!(rt; fits(16, 8388607, 34) == Ok(()));
    assert!(rt; fits(536870872, 3, 34) == Ok(()));
    assert!(rt; fits(536870873, 3, 34) == full(39, 38));
    assert!(rt; fits(1 << 63, 3, 1) == full(6, 0));
}

// Whether a store is created in place of what else stands on the disk, and none in its place.
fn is_created_once<D: Disk>(mut disk: D) -> bool {
    create(&mut disk, STATES) == Ok(())
        && create(&mut disk, STATES) == Err(CreateError::Exists)
        && create(&mut disk, TRIGGERS) == Err(CreateError::OtherKind)
        && disk.len() == Ok(32)
}

#[test]
fn a_store_is_created_once(rt: HostRuntime) -> Result<(), AllocError> {
    let disk = disk_of(rt.alloc(), b"some other file, which is longer", b"")?;
    assert!(rt; is_created_once(disk));
    Ok(())
}

// What a disk begins with, and what making a store of triggers on it answers.
type Making = (&'static [u8], Result<(), CreateError>);

impl Row for Making {
    fn holds(&self, alloc: Global) -> Result<bool, AllocError> {
        let &(front, answer) = self;
        let mut disk = disk_of(alloc, front, b"")?;
        Ok(create(&mut disk, TRIGGERS) == answer)
    }
}

const MAKINGS: &[Making] = &[
    (b"QZ23\x01T", Err(CreateError::Exists)),
    (b"QZ23\x02T", Err(CreateError::Exists)),
    (b"QZ23\x03T, a later version", Err(CreateError::Exists)),
    (b"QZ23\xffS, a later version", Err(CreateError::OtherKind)),
    (b"QZ23\x01U, another kind", Ok(())),
    (b"QZ24\x01T, other letters", Ok(())),
    (b"QZ23\x01", Ok(())),
];

#[test]
fn a_store_of_any_version_is_left(rt: HostRuntime) -> Result<(), AllocError> {
    check(&rt, rt.alloc(), MAKINGS)
}

// Whether a store of this version is made once, whichever version is asked for then, and opened as one of it. A commit and a
// restart leave the version.
fn keeps_its_version(alloc: Global, version: u8) -> Option<bool> {
    let mut disk = MemDisk::new(alloc);
    let made = match version {
        1 => create_version(&mut disk, 1, TRIGGERS),
        _ => create(&mut disk, TRIGGERS),
    };
    let again = create(&mut disk, TRIGGERS);
    let older = create_version(&mut disk, 1, TRIGGERS);
    let Ok((mut journal, _)) = Journal::mount(alloc, disk, TRIGGERS) else {
        return None;
    };
    let first = journal.version();
    let is_added = journal.append(b"\x07").is_ok();
    let is_again = restarts_with(alloc, &mut journal, &[1]);
    let last = journal.version();
    drop(journal);
    let exists = Err(CreateError::Exists);
    let is_made_once = made == Ok(()) && again == exists && older == exists;
    Some(is_made_once && is_added && is_again && first == version && last == version)
}

#[test]
fn a_store_keeps_its_version(rt: HostRuntime) {
    assert!(rt; keeps_its_version(rt.alloc(), 1) == Some(true));
    assert!(rt; keeps_its_version(rt.alloc(), 2) == Some(true));
}

// Whether a store is created the second time, where a fault comes first.
fn is_created_after_a_fault<D: Disk>(mut disk: D) -> bool {
    create(&mut disk, STATES) == Err(CreateError::Fault) && create(&mut disk, STATES) == Ok(())
}

#[test]
fn a_store_is_created_after_a_fault(rt: HostRuntime) -> Result<(), AllocError> {
    let failing = List::from_vec(Vec::from_slice(rt.alloc(), &[1])?);
    let disk = FaultDisk::new(MemDisk::new(rt.alloc()), failing);
    assert!(rt; is_created_after_a_fault(disk));
    Ok(())
}

// The disk behind an opening and a commit of `\x07`.
fn committed<D: Disk>(alloc: Global, disk: D) -> Option<D> {
    let Ok((mut journal, _)) = Journal::mount(alloc, disk, TRIGGERS) else {
        return None;
    };
    let answer = journal.append(b"\x07");
    let disk = journal.into_disk();
    if answer.is_ok() { Some(disk) } else { None }
}

pub(crate) fn is_write(call: &Call, offset: u64, payload: &[u8]) -> bool {
    matches!(call, Call::Write { at, bytes } if *at == offset && bytes.as_slice() == payload)
}

// Whether these are the four calls of an opening: the header is read, and then the closed gate.
fn are_those_of_an_opening(calls: &[Call]) -> bool {
    matches!(
        calls,
        [
            Call::Sync,
            Call::Len,
            Call::Read { at: 0, count: 16 },
            Call::Read { at: 16, count: 1 }
        ]
    )
}

// Whether these are the four calls of a commit: the body, a sync, the gate, a sync.
fn are_those_of_a_commit(calls: &[Call]) -> bool {
    match calls {
        [body, Call::Sync, gate, Call::Sync] => {
            is_write(body, 17, b"\0\0\0\x01\x07\0") && is_write(gate, 16, b"\xa5")
        }
        _ => false,
    }
}

fn commit_makes_four_calls(alloc: Global) -> Option<bool> {
    let disk = disk_of(alloc, HEADER, b"\0").ok()?;
    let disk = committed(alloc, disk)?;
    let calls = disk.calls();
    let is_right = calls.len() == 8
        && are_those_of_an_opening(&calls[..4])
        && are_those_of_a_commit(&calls[4..]);
    drop(disk);
    Some(is_right)
}

#[test]
fn a_commit_makes_four_device_calls(rt: HostRuntime) {
    assert!(rt; commit_makes_four_calls(rt.alloc()) == Some(true));
}

/// How many calls pass after the four of an opening, until the disk fails; the bytes after the header that come up at a
/// crash; what a commit of `\x07` answers then; and the lengths of the payloads that a restart finds.
type Cut = (u8, &'static [u8], Result<(), AppendError>, &'static [usize]);

// A list of the image alone that has a header and these bytes.
pub(crate) fn only_image(alloc: Global, image: &[u8]) -> Result<List<List<u8>>, AllocError> {
    let image = joined(alloc, HEADER, image)?;
    let mut images = List::new(alloc);
    images.push(image)?;
    Ok(images)
}

// A new store's disk that is cut so.
pub(crate) fn cut_disk(
    alloc: Global,
    passes: u8,
    image: &[u8],
) -> Result<CutDisk<MemDisk>, AllocError> {
    let (images, mut disk) = beside(only_image(alloc, image)?, disk_of(alloc, HEADER, b"\0"))?;
    disk.choose(images);
    Ok(CutDisk::new(disk, 4 + u64::from(passes)))
}

// Whether a crash and a restart leave payloads of these lengths.
pub(crate) fn restarts_with<D: Disk>(
    alloc: Global,
    journal: &mut Journal<D>,
    lengths: &[usize],
) -> bool {
    journal.crash().is_ok()
        && matches!(
            journal.remount(alloc),
            Ok(payloads) if have_lengths(payloads.as_slice(), lengths)
        )
}

// Whether a commit of `\x07` is answered so, and a fault closes the journal.
fn commits<D: Disk>(journal: &mut Journal<D>, answer: Result<(), AppendError>) -> bool {
    journal.append(b"\x07") == answer
        && (answer.is_ok() || journal.append(b"\x08") == Err(AppendError::Closed { at: 16 }))
}

fn is_cut_on<D: Disk>(alloc: Global, disk: D, cut: &Cut) -> bool {
    let Ok((mut journal, _)) = Journal::mount(alloc, disk, TRIGGERS) else {
        return false;
    };
    let is_right = commits(&mut journal, cut.2) && restarts_with(alloc, &mut journal, cut.3);
    drop(journal);
    is_right
}

impl Row for Cut {
    fn holds(&self, alloc: Global) -> Result<bool, AllocError> {
        let disk = cut_disk(alloc, self.0, self.1)?;
        Ok(is_cut_on(alloc, disk, self))
    }
}

const FAULT: Result<(), AppendError> = Err(AppendError::Fault);

/// What is no image is passed over, and the bytes come up as they were written.
const NO_IMAGE: &[u8] = b"";

const CUTS: &[Cut] = &[
    (0, NO_IMAGE, FAULT, &[]),
    (1, NO_IMAGE, FAULT, &[]),
    (1, b"\0\xa5\xa5\xa5", FAULT, &[]),
    (2, NO_IMAGE, FAULT, &[]),
    (2, b"\xa5\0\0\0\x01\x07\0", FAULT, &[]),
    (3, NO_IMAGE, FAULT, &[1]),
    (3, b"\0\0\0\0\x01\x07\0", FAULT, &[]),
    (3, b"\x25\0\0\0\x01\x07\0", FAULT, &[]),
    (4, NO_IMAGE, Ok(()), &[1]),
    (4, b"\0\0\0\0\x01\x07\0", Ok(()), &[1]),
];

#[test]
fn a_commit_that_is_cut_is_there_or_not(rt: HostRuntime) -> Result<(), AllocError> {
    check(&rt, rt.alloc(), CUTS)
}
