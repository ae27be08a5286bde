//! A disk over an open file: in memory, where calls come short, are interrupted or fail, and one file of the system.
use crate::disk::{disk_with_images, holds, put};
use qz_civil::{List, Text, beside};
use qz_disk::{Disk, FaultDisk, FileDisk, MemDisk, ShortHandle, SystemFile};
use std::alloc::{AllocError, Global};
use std::{env, fs, process};

// A file with the bytes `abc` moves so many bytes in a call. So many of its first calls are interrupted, and those of its
// disk with these numbers fail. Whether four bytes at offset 2 outlast a crash, and are read again.
type Transfer = (usize, u64, &'static [u64], bool);

// The numbers from 1 on.
fn first_numbers(alloc: Global, count: u64) -> Result<List<u64>, AllocError> {
    let mut numbers = Vec::new(alloc);
    for number in 0..count {
        numbers.push(number + 1)?;
    }
    Ok(List::from_vec(numbers))
}

// A disk that would come up as `abc` if nothing were synced.
fn failing_disk(alloc: Global, failing: &[u64]) -> Result<FaultDisk<MemDisk>, AllocError> {
    let listed = List::from_vec(Vec::from_slice(alloc, failing)?);
    Ok(FaultDisk::new(disk_with_images(alloc, b"abc", &[b"abc"])?, listed))
}

fn keeps_a_write(alloc: Global, row: &Transfer) -> Result<bool, AllocError> {
    let &(most, interruptions, failing, _) = row;
    let (interrupted, disk) = beside(
        first_numbers(alloc, interruptions)?,
        failing_disk(alloc, failing),
    )?;
    let mut disk = FileDisk::new(ShortHandle::new(disk, most.max(1), interrupted));
    let is_kept = put(&mut disk, 2, b"XYZW")
        && disk.sync().is_ok()
        && disk.restart().is_ok()
        && holds(alloc, &mut disk, b"abXYZW");
    drop(disk);
    Ok(is_kept)
}

// The calls of the disk are the length, as many writes as it takes, a sync, a restart, the length, and the reads.
const TRANSFERS: &[Transfer] = &[
    (100, 0, &[], true),
    (3, 0, &[], true),
    (1, 0, &[], true),
    (1, 1000, &[], true),
    (1, 1001, &[], false),
    (2, 0, &[1], false),
    (2, 0, &[2], false),
    (2, 0, &[3], false),
    (2, 0, &[4], false),
    (2, 0, &[5], false),
    (2, 0, &[9], false),
];

#[test]
fn transfers_go_on_until_all_is_done(rt: HostRuntime) {
    for row in TRANSFERS {
        assert!(rt;
            keeps_a_write(rt.alloc(), row) == Ok(row.3),
            "at {}, {}, {:?}",
            row.0,
            row.1,
            row.2
        );
    }
}

// A file's name in the folder for such.
fn file_name(rt: HostRuntime) -> Option<Text> {
    let name = format!(in rt.alloc(); "qz-disk-test-{}", process::id(rt.process())).ok()?;
    let folder = env::temp_dir(&rt).ok()?;
    let path = folder.join(rt.alloc(), name.as_str()).ok()?;
    Text::from_str(rt.alloc(), path.as_str()).ok()
}

fn file(rt: HostRuntime, path: &str) -> Result<FileDisk<SystemFile>, AllocError> {
    Ok(FileDisk::new(SystemFile::new(rt, Text::from_str(rt.alloc(), path)?)))
}

// Whether a disk is empty, makes no file by itself, keeps what is written, and shuts out another on the same file.
fn keeps_a_file<D: Disk, E: Disk>(rt: HostRuntime, path: &str, mut disk: D, mut other: E) -> bool {
    let empty = disk.len() == Ok(0) && disk.sync().is_ok();
    let made_none = matches!(fs::exists(&rt, path), Ok(false));
    let wrote = put(&mut disk, 0, b"abc") && other.len().is_err() && disk.sync().is_ok();
    let again = put(&mut disk, 2, b"XYZW") && disk.sync().is_ok() && disk.restart().is_ok();
    empty && made_none && wrote && again && holds(rt.alloc(), &mut disk, b"abXYZW")
}

// Whether it is found out that another program cuts the file: what was measured isn't there to be read.
fn finds_a_cut<D: Disk>(rt: HostRuntime, path: &str, mut disk: D) -> bool {
    let long = disk.len() == Ok(6);
    let cut = fs::write(&rt, path, "a").is_ok();
    long && cut && disk.read(0, &mut [0; 3]).is_err()
}

// Whether a file is kept, and then cut, and can be removed.
fn is_made(rt: HostRuntime, path: &str) -> Result<bool, AllocError> {
    let other = file(rt, path)?;
    let kept = keeps_a_file(rt, path, file(rt, path)?, other);
    let cut = finds_a_cut(rt, path, file(rt, path)?);
    let removed = fs::remove_file(&rt, path).is_ok();
    Ok(kept && cut && removed)
}

#[test]
fn a_file_is_made_at_the_first_write(rt: HostRuntime) {
    let path = file_name(rt);
    let is_made = matches!(&path, Some(path) if is_made(rt, path.as_str()) == Ok(true));
    drop(path);
    assert!(rt; is_made);
}
