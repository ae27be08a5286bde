//! Heads.
use qz_snapshot::{Head, Numbers, put_head, read_head};
use std::alloc::AllocError;

// Six payloads and six entries before it, and one piece after it.
pub(crate) const HEAD: Head = Head {
    payloads: 6,
    entries: 6,
    pieces: 1,
    numbers: Numbers {
        next_entry: 2,
        next_epoch: 2,
        threshold: 60000,
        last_moment: 1704067200000,
        horizon: 7258118399999,
    },
};

const BYTES: [u8; 53] = [
    0xf0, 0, 0, 0, 6, 0, 0, 0, 6, 0, 0, 0, 1, 0, 0, 0, 0, 0, 0, 0, 2, 0, 0, 0, 0, 0, 0, 0, 2, 0, 0,
    0, 0, 0, 0, 0xea, 0x60, 0, 0, 0x01, 0x8c, 0xc2, 0x51, 0xf4, 0x00, 0, 0, 0x06, 0x99, 0xe9, 0x91,
    0xa7, 0xff,
];

#[test]
fn a_head_is_written(rt: HostRuntime) -> Result<(), AllocError> {
    let mut out = Vec::new(rt.alloc());
    put_head(&mut out, &HEAD)?;
    assert!(rt; out.as_slice() == BYTES.as_slice());
    Ok(())
}

#[test]
fn a_head_is_read(rt: HostRuntime) -> Result<(), AllocError> {
    let alloc = rt.alloc();
    assert!(rt; read_head(&BYTES) == Some(HEAD));
    // Cut short, one byte more, another first byte.
    let (front, _) = BYTES.split_at(52);
    assert!(rt; read_head(front) == None);
    let mut long = Vec::from_slice(alloc, &BYTES)?;
    long.push(0)?;
    assert!(rt; read_head(&long) == None);
    let mut piece = Vec::from_slice(alloc, &BYTES)?;
    piece[0] = 0xf1;
    assert!(rt; read_head(&piece) == None);
    assert!(rt; read_head(&[]) == None);
    Ok(())
}
