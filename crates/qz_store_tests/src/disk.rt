//! Worked examples of crashes, and the disks that fail by a rule.
use qz_civil::{List, beside};
use qz_disk::{Call, CutDisk, Disk, FaultDisk, MemDisk};
use std::alloc::{AllocError, Global};

fn list(alloc: Global, bytes: &[u8]) -> Result<List<u8>, AllocError> {
    Ok(List::from_vec(Vec::from_slice(alloc, bytes)?))
}

// All that the disk holds, where it can be read.
fn content<D: Disk>(alloc: Global, disk: &mut D) -> Option<Vec<u8>> {
    let len = disk.len().ok()?;
    let mut held = vec![in alloc; 0; len as usize].ok()?;
    disk.read(0, &mut held).ok()?;
    Some(held)
}

// Whether the disk holds these bytes.
pub(crate) fn holds<D: Disk>(alloc: Global, disk: &mut D, bytes: &[u8]) -> bool {
    match content(alloc, disk) {
        Some(held) => held.as_slice() == bytes,
        None => false,
    }
}

// A write at this offset, where the disk is that long.
pub(crate) fn put<D: Disk>(disk: &mut D, at: u64, bytes: &[u8]) -> bool {
    match disk.len() {
        Ok(len) if at <= len => disk.write_at(at, bytes).is_ok(),
        _ => false,
    }
}

fn disk_with(alloc: Global, bytes: &[u8]) -> Result<MemDisk, AllocError> {
    Ok(MemDisk::with_bytes(alloc, list(alloc, bytes)?))
}

fn push_image(
    images: &mut List<List<u8>>,
    image: Result<List<u8>, AllocError>,
) -> Result<(), AllocError> {
    Ok(images.push(image?)?)
}

fn lists(alloc: Global, pieces: &[&[u8]]) -> Result<List<List<u8>>, AllocError> {
    let mut lists = List::new(alloc);
    for &piece in pieces.iter() {
        push_image(&mut lists, list(alloc, piece))?;
    }
    Ok(lists)
}

// A disk with these bytes, for which these images were chosen.
pub(crate) fn disk_with_images(
    alloc: Global,
    bytes: &[u8],
    chosen: &[&[u8]],
) -> Result<MemDisk, AllocError> {
    let (images, mut disk) = beside(lists(alloc, chosen)?, disk_with(alloc, bytes))?;
    disk.choose(images);
    Ok(disk)
}

// Whether the disk, after a write at this offset and a restart, holds what is wanted.
fn restarts_as<D: Disk>(alloc: Global, disk: &mut D, at: u64, bytes: &[u8], want: &[u8]) -> bool {
    put(disk, at, bytes) && disk.restart().is_ok() && holds(alloc, disk, want)
}

// Bytes, and whether they come up, if they are chosen: `abc` is synced, and then `XY` written at 2.
type Image = (&'static [u8], bool);

// Whether they come up.
fn comes_up(alloc: Global, bytes: &[u8]) -> Result<bool, AllocError> {
    let mut disk = disk_with_images(alloc, b"abc", &[bytes])?;
    let comes_up = restarts_as(alloc, &mut disk, 2, b"XY", bytes);
    drop(disk);
    Ok(comes_up)
}

const IMAGES: &[Image] = &[
    (b"abc", true),
    (b"abX", true),
    (b"ab\0", true),
    (b"abcY", true),
    (b"ab\xff\xff", true),
    (b"abXY", true),
    (b"ab", false),
    (b"abXYZ", false),
    (b"aBXY", false),
];

#[test]
fn a_crash_tears_only_what_was_written(rt: HostRuntime) {
    for &(bytes, is_image) in IMAGES {
        assert!(rt; comes_up(rt.alloc(), bytes) == Ok(is_image), "at {bytes:?}");
    }
}

// The second takes none: what was synced by the first can't become shorter or other.
fn takes_two_of_four_images(alloc: Global) -> Result<bool, AllocError> {
    let mut disk = disk_with_images(alloc, b"", &[b"no image", b"a", b"", b"b"])?;
    let is_right = restarts_as(alloc, &mut disk, 0, b"XY", b"a")
        && restarts_as(alloc, &mut disk, 0, b"c", b"b")
        && restarts_as(alloc, &mut disk, 0, b"d", b"d")
        && disk.starved() == 0;
    drop(disk);
    Ok(is_right)
}

#[test]
fn each_restart_takes_the_next_image(rt: HostRuntime) {
    assert!(rt; takes_two_of_four_images(rt.alloc()) == Ok(true));
}

// Whether these are a write of `X` at 1, a sync, and a reading of three bytes.
fn are_those_of_a_change(calls: &[Call]) -> bool {
    match calls {
        [
            Call::Len,
            Call::Write { at: 1, bytes },
            Call::Sync,
            Call::Len,
            Call::Read { at: 0, count: 3 },
        ] => bytes.as_slice() == b"X".as_slice(),
        _ => false,
    }
}

fn records_its_calls(alloc: Global) -> Result<bool, AllocError> {
    let mut disk = disk_with(alloc, b"abc")?;
    let is_right = put(&mut disk, 1, b"X")
        && disk.sync().is_ok()
        && holds(alloc, &mut disk, b"aXc")
        && are_those_of_a_change(disk.calls());
    drop(disk);
    Ok(is_right)
}

#[test]
fn a_disk_in_memory_records_its_calls(rt: HostRuntime) {
    assert!(rt; records_its_calls(rt.alloc()) == Ok(true));
}

// Whether the disk fails behind a write, and a restart ends that.
fn is_cut_up_to_a_restart(alloc: Global) -> Result<bool, AllocError> {
    let mut disk = CutDisk::new(disk_with(alloc, b"abc")?, 2);
    let is_right = put(&mut disk, 0, b"X")
        && disk.sync().is_err()
        && disk.len().is_err()
        && disk.restart().is_ok()
        && holds(alloc, &mut disk, b"Xbc");
    drop(disk);
    Ok(is_right)
}

#[test]
fn a_cut_ends_with_a_restart(rt: HostRuntime) {
    assert!(rt; is_cut_up_to_a_restart(rt.alloc()) == Ok(true));
}

// Which of five calls fail, where the second and the fourth are listed.
fn failing(alloc: Global) -> Result<[bool; 5], AllocError> {
    let listed = List::from_vec(Vec::from_slice(alloc, &[2, 4])?);
    let mut disk = FaultDisk::new(MemDisk::new(alloc), listed);
    let failing = [
        disk.sync().is_err(),
        disk.sync().is_err(),
        disk.sync().is_err(),
        disk.sync().is_err(),
        disk.sync().is_err(),
    ];
    drop(disk);
    Ok(failing)
}

#[test]
fn the_listed_calls_fail(rt: HostRuntime) {
    assert!(rt; failing(rt.alloc()) == Ok([false, true, false, true, false]));
}
