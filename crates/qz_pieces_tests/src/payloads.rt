//! All pieces of a snapshot.
use qz_pieces::{Pieces, ReadError, RowKind, read_pieces};
use std::alloc::{AllocError, Global};

// The place of the first wrong payload, or None where they are read.
fn wrong_place(alloc: Global, payloads: &[&[u8]]) -> Result<Option<usize>, AllocError> {
    match read_pieces(alloc, payloads) {
        Ok(_) => Ok(None),
        Err(ReadError::Damaged { place }) => Ok(Some(place)),
        Err(ReadError::NoMemory) => Err(AllocError),
    }
}

#[test]
fn rows_are_read_back(rt: HostRuntime) -> Result<(), AllocError> {
    let alloc = rt.alloc();
    let long = vec![in alloc; 7u8; 20000]?;
    let mut pieces = Pieces::new(alloc)?;
    pieces.add(alloc, RowKind::Job, &long)?;
    pieces.add(alloc, RowKind::Trigger, &long)?;
    pieces.add(alloc, RowKind::Trigger, &[1, 2])?;
    pieces.add(alloc, RowKind::JobGroup, &[])?;
    let pieces = pieces.into_pieces()?;
    assert!(rt; pieces.len() == 2);
    let Ok(rows) = read_pieces(alloc, &[&pieces[0], &pieces[1]]) else {
        assert!(rt; false);
        return Ok(());
    };
    assert!(rt; rows.len() == 4);
    assert!(rt; rows[0].kind == RowKind::Job && rows[0].bytes.len() == 20000);
    assert!(rt; rows[1].kind == RowKind::Trigger && rows[1].bytes.len() == 20000);
    assert!(rt; rows[2].kind == RowKind::Trigger && rows[2].bytes.len() == 2);
    assert!(rt; rows[3].kind == RowKind::JobGroup && rows[3].bytes.len() == 0);
    // The second piece alone is one of these rows; in the other order the kinds fall.
    assert!(rt; wrong_place(alloc, &[&pieces[1]])? == None);
    assert!(rt; wrong_place(alloc, &[&pieces[1], &pieces[0]])? == Some(1));
    Ok(())
}

#[test]
fn the_first_wrong_payload_is_named(rt: HostRuntime) -> Result<(), AllocError> {
    let alloc = rt.alloc();
    let good: &[u8] = &[0xf1, 1, 0, 1, 9];
    assert!(rt; wrong_place(alloc, &[])? == None);
    assert!(rt; wrong_place(alloc, &[good])? == None);
    // The first piece has room for the row of the second one.
    assert!(rt; wrong_place(alloc, &[good, good])? == Some(1));
    // Another first byte, no row, half a row, a kind that there isn't, a kind before the one before.
    assert!(rt; wrong_place(alloc, &[&[0xf0, 1, 0, 1, 9]])? == Some(0));
    assert!(rt; wrong_place(alloc, &[&[0xf1]])? == Some(0));
    assert!(rt; wrong_place(alloc, &[&[]])? == Some(0));
    assert!(rt; wrong_place(alloc, &[&[0xf1, 1, 0, 2, 9]])? == Some(0));
    assert!(rt; wrong_place(alloc, &[&[0xf1, 8, 0, 0]])? == Some(0));
    assert!(rt; wrong_place(alloc, &[&[0xf1, 1, 0, 0, 0, 0, 0]])? == Some(0));
    assert!(rt; wrong_place(alloc, &[good, &[0xf1]])? == Some(1));
    Ok(())
}
