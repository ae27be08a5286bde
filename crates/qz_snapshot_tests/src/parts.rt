//! Whole snapshots, read back.
use crate::heads::HEAD;
use qz_pieces::{Pieces, RowKind};
use qz_snapshot::{Head, Parts, add_row, put_head, read_parts};
use qz_types::{MemberRow, NoMemory, Text};
use std::alloc::Global;

// The bytes of a head.
pub(crate) fn head_bytes(alloc: Global, head: &Head) -> Result<Vec<u8>, NoMemory> {
    let mut out = Vec::new(alloc);
    put_head(&mut out, head)?;
    Ok(out)
}

// The bytes of a piece with one member.
pub(crate) fn piece_bytes(alloc: Global) -> Result<Vec<u8>, NoMemory> {
    let row = MemberRow {
        node: Text::from_str(alloc, "A")?,
        epoch: 1,
    };
    let mut pieces = Pieces::new(alloc)?;
    add_row(alloc, &mut pieces, RowKind::Member, &row)?;
    let mut pieces = pieces.into_pieces()?;
    match pieces.pop() {
        Some(piece) => Ok(piece),
        None => Err(NoMemory),
    }
}

// Whether the head and the member are what was written.
fn is_written(found: &Option<(Head, Parts)>) -> bool {
    match found {
        Some((head, parts)) => {
            *head == HEAD
                && parts.members.len() == 1
                && parts.members[0].epoch == 1
                && parts.members[0].node.as_str() == "A"
                && parts.jobs.is_empty()
        }
        None => false,
    }
}

#[test]
fn a_snapshot_is_read_back(rt: HostRuntime) -> Result<(), NoMemory> {
    let alloc = rt.alloc();
    let head = head_bytes(alloc, &HEAD)?;
    let piece = piece_bytes(alloc)?;
    let payloads: [&[u8]; 2] = [&head, &piece];
    assert!(rt; is_written(&read_parts(alloc, &payloads)?));
    // What follows is passed over, and a piece that is missing isn't.
    let more: [&[u8]; 3] = [&head, &piece, &piece];
    assert!(rt; is_written(&read_parts(alloc, &more)?));
    let cut: [&[u8]; 1] = [&head];
    assert!(rt; read_parts(alloc, &cut)?.is_none());
    assert!(rt; read_parts(alloc, &[])?.is_none());
    Ok(())
}

#[test]
fn a_spoiled_byte_is_seen(rt: HostRuntime) -> Result<(), NoMemory> {
    let alloc = rt.alloc();
    let head = head_bytes(alloc, &HEAD)?;
    let piece = piece_bytes(alloc)?;
    for place in 0..head.len() {
        let mut spoiled = Vec::from_slice(alloc, &head)?;
        spoiled[place] = spoiled[place] ^ 1;
        let payloads: [&[u8]; 2] = [&spoiled, &piece];
        assert!(rt; !is_written(&read_parts(alloc, &payloads)?));
    }
    for place in 0..piece.len() {
        let mut spoiled = Vec::from_slice(alloc, &piece)?;
        spoiled[place] = spoiled[place] ^ 1;
        let payloads: [&[u8]; 2] = [&head, &spoiled];
        assert!(rt; !is_written(&read_parts(alloc, &payloads)?));
    }
    Ok(())
}
