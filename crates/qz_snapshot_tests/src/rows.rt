//! Rows in pieces.
use qz_pieces::{Pieces, RowKind};
use qz_snapshot::add_row;
use qz_types::{MemberRow, Text};
use std::alloc::AllocError;

#[test]
fn a_member_is_put_into_a_piece(rt: HostRuntime) -> Result<(), AllocError> {
    let alloc = rt.alloc();
    let row = MemberRow {
        node: Text::from_str(alloc, "A")?,
        epoch: 1,
    };
    let mut pieces = Pieces::new(alloc)?;
    assert!(rt; add_row(alloc, &mut pieces, RowKind::Member, &row).is_ok());
    let pieces = pieces.into_pieces()?;
    assert!(rt; pieces.len() == 1);
    let wanted: &[u8] = &[0xf1, 5, 0, 12, 2, 0, 1, 0x41, 0, 0, 0, 0, 0, 0, 0, 1];
    assert!(rt; pieces[0].as_slice() == wanted);
    Ok(())
}
