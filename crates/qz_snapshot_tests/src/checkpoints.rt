//! Checkpoints on a disk in memory.
use qz_civil::List;
use qz_disk::{Call, MemDisk};
use qz_journal::{Journal, TRIGGERS};
use qz_snapshot::checkpoint;
use qz_tables::Tables;
use qz_types::{MemberRow, NoMemory, Text};
use qz_valid::are_valid;
use std::alloc::{AllocError, Global};

// F0; no payload and no entry before it, one piece after it; the next entry 1, the next epoch 2, the threshold 60000, the last
// moment 0, the horizon 7258118399999. Its length stands before it. Then an open gate, and F1 and the record of the member A under
// the epoch 1, with its length before it, and a closed gate.
const SNAPSHOT: &[u8] =
    b"\0\0\0\x35\xf0\0\0\0\0\0\0\0\0\0\0\0\x01\0\0\0\0\0\0\0\x01\0\0\0\0\0\0\0\x02\0\0\0\0\0\0\xea\x60\0\0\0\0\0\0\0\0\0\0\x06\x99\xe9\x91\xa7\xff\xa5\0\0\0\x10\xf1\x05\0\x0c\x02\0\x01A\0\0\0\0\0\0\0\x01\0";

// Puts in the member A.
fn add_member(alloc: Global, tables: &mut Tables) -> Result<(), NoMemory> {
    tables.reserve(1)?;
    tables.set_next_epoch(2);
    let row = MemberRow {
        node: Text::from_str(alloc, "A")?,
        epoch: 1,
    };
    if tables.get_member(&row.node).is_none() {
        tables.insert_member(row);
    }
    Ok(())
}

// Whether a checkpoint is made, after so many entries.
fn is_made(alloc: Global, journal: &mut Journal<MemDisk>, tables: &Tables, entries: u64) -> bool {
    if journal.payloads() < entries {
        return false;
    }
    match are_valid(alloc, tables) {
        Ok(true) => matches!(checkpoint(alloc, journal, tables, entries), Ok(true)),
        _ => false,
    }
}

fn is_write(call: &Call, offset: u64, payload: &[u8]) -> bool {
    matches!(call, Call::Write { at, bytes } if *at == offset && bytes.as_slice() == payload)
}

// Whether these are the calls of appending payloads at this gate: lengths and bytes and a closed gate, a sync, the open gate, a
// sync.
fn appends(calls: &[Call], gate: u8, body: &[u8]) -> bool {
    let gate = u64::from(gate);
    match calls {
        [write, Call::Sync, open, Call::Sync] => {
            is_write(write, gate + 1, body) && is_write(open, gate, b"\xa5")
        }
        _ => false,
    }
}

// Whether these are the calls of setting the slot whose gate is at this place: its offset, a sync, its gate, a sync.
fn sets(calls: &[Call], gate: u8, offset: &[u8]) -> bool {
    let gate = u64::from(gate);
    match calls {
        [number, Call::Sync, open, Call::Sync] => {
            is_write(number, gate + 1, offset) && is_write(open, gate, b"\xa5")
        }
        _ => false,
    }
}

// Whether these are the calls of clearing the slot whose gate is at this place, and setting it to the offset.
fn clears_and_sets(calls: &[Call], gate: u8, offset: &[u8]) -> bool {
    match calls {
        [close, Call::Sync, ..] => is_write(close, u64::from(gate), b"\0")
            && sets(&calls[2..], gate, offset),
        _ => false,
    }
}

// An empty store of triggers.
fn empty_store(alloc: Global) -> Result<MemDisk, AllocError> {
    let mut bytes = Vec::from_slice(alloc, b"QZ23\x02T")?;
    bytes.extend_from_slice(&[0; 11])?;
    Ok(MemDisk::with_bytes(alloc, List::from_vec(bytes)))
}

// Makes three checkpoints, and says whether the disk's calls are right.
fn makes_three(alloc: Global, tables: &Tables) -> Result<bool, AllocError> {
    let Ok((mut journal, _)) = Journal::mount(alloc, empty_store(alloc)?, TRIGGERS) else {
        return Ok(false);
    };
    let is_first = is_made(alloc, &mut journal, tables, 0) && journal.slot() == Some(6);
    let is_second = is_made(alloc, &mut journal, tables, 2) && journal.slot() == Some(11);
    let is_third = is_made(alloc, &mut journal, tables, 2) && journal.slot() == Some(6);
    let are_counted = journal.payloads() == 6 && journal.gate() == 253;
    let disk = journal.into_disk();
    let calls = disk.calls();
    let is_right = calls.len() == 30
        && appends(&calls[4..8], 16, SNAPSHOT)
        && sets(&calls[8..12], 6, b"\0\0\0\x10")
        && sets(&calls[16..20], 11, b"\0\0\0\x5f")
        && clears_and_sets(&calls[24..], 6, b"\0\0\0\xae");
    drop(disk);
    Ok(is_first && is_second && is_third && are_counted && is_right)
}

#[test]
fn snapshots_are_appended_and_the_slots_take_turns(rt: HostRuntime) -> Result<(), AllocError> {
    let alloc = rt.alloc();
    let mut tables = Tables::new(alloc, 2);
    let is_added = add_member(alloc, &mut tables).is_ok();
    let are_made = makes_three(alloc, &tables);
    drop(tables);
    assert!(rt; is_added && are_made?);
    Ok(())
}
