//! The tables that payloads begin with.
use crate::heads::HEAD;
use crate::parts::{head_bytes, piece_bytes};
use qz_civil::List;
use qz_snapshot::{Head, are_cut_short, is_part, read_base};
use qz_types::NoMemory;
use std::alloc::Global;

// How many entries came before a snapshot of one member, whose head says so many and this next epoch, where an opening takes
// it. Six payloads came before it.
fn entries_before(alloc: Global, entries: u32, next_epoch: u64) -> Result<Option<u32>, NoMemory> {
    let mut head = HEAD;
    head.entries = entries;
    head.numbers.next_epoch = next_epoch;
    let mut payloads = List::new(alloc);
    payloads.push(List::from_vec(head_bytes(alloc, &head)?))?;
    payloads.push(List::from_vec(piece_bytes(alloc)?))?;
    match read_base(alloc, &payloads)? {
        Some((tables, entries)) => {
            drop(tables);
            Ok(Some(entries))
        }
        None => Ok(None),
    }
}

#[test]
fn a_base_is_read(rt: HostRuntime) -> Result<(), NoMemory> {
    let alloc = rt.alloc();
    assert!(rt; entries_before(alloc, 6, 2)? == Some(6));
    // Fewer entries than payloads are right, and more aren't.
    assert!(rt; entries_before(alloc, 5, 2)? == Some(5));
    assert!(rt; entries_before(alloc, 7, 2)? == None);
    Ok(())
}

#[test]
fn a_base_that_is_not_valid_is_not_taken(rt: HostRuntime) -> Result<(), NoMemory> {
    let alloc = rt.alloc();
    // The member has the epoch 1 already.
    assert!(rt; entries_before(alloc, 6, 1)? == None);
    assert!(rt; read_base(alloc, &List::new(alloc))?.is_none());
    Ok(())
}

// Whether a head that says that two pieces follow goes on after so many.
fn goes_on_after(alloc: Global, pieces: usize) -> Result<bool, NoMemory> {
    let head = Head { pieces: 2, ..HEAD };
    let mut payloads = List::new(alloc);
    payloads.push(List::from_vec(head_bytes(alloc, &head)?))?;
    for _ in 0..pieces {
        payloads.push(List::from_vec(piece_bytes(alloc)?))?;
    }
    Ok(are_cut_short(payloads.as_slice()))
}

#[test]
fn a_snapshot_goes_on_until_its_pieces_are_there(rt: HostRuntime) -> Result<(), NoMemory> {
    let alloc = rt.alloc();
    assert!(rt; goes_on_after(alloc, 0)? && goes_on_after(alloc, 1)?);
    assert!(rt; !goes_on_after(alloc, 2)? && !are_cut_short(&[]));
    Ok(())
}

#[test]
fn parts_are_told_by_their_first_byte(rt: HostRuntime) -> Result<(), NoMemory> {
    let alloc = rt.alloc();
    assert!(rt; is_part(&head_bytes(alloc, &HEAD)?) && is_part(&piece_bytes(alloc)?));
    assert!(rt; !is_part(&[0xef, 0xf0]) && !is_part(&[0xf2]) && !is_part(&[]));
    Ok(())
}
