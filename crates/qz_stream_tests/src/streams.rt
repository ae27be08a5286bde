//! Streams of worked bytes.
use qz_stream::{BadStream, Next, Place, Stream};
use std::alloc::{AllocError, Global};

// A store of version 2 with any slots and two payloads, which ends at 30; then bytes that are passed over.
const STORE: [u8; 36] = [
    b'Q', b'Z', b'2', b'3', 2, b'T', 0xa5, 1, 2, 3, 4, 0xff, 5, 6, 7, 8, 0xa5, 0, 0, 0, 1, 9, 0xa5,
    0, 0, 0, 3, b'a', b'b', b'c', 0, 0xa5, 0, 0, 0, 0,
];

// What a stream made of its bytes: of each payload the offset of its gate and its bytes, the bad place, whether an answer
// changed after a bad place, and where it stands.
#[derive(Drop)]
struct Reading {
    payloads: Vec<(u64, Vec<u8>)>,
    bad: Option<u64>,
    is_forgotten: bool,
    stream: Stream,
}

// Feeds a piece, and answers the bad place.
fn take_piece(
    alloc: Global,
    stream: &mut Stream,
    payloads: &mut Vec<(u64, Vec<u8>)>,
    piece: &[u8],
) -> Result<Option<u64>, AllocError> {
    let mut rest = piece;
    'rest: loop {
        match stream.next(rest) {
            Ok(Next::Payload { used }) => {
                let payload = Vec::from_slice(alloc, stream.payload())?;
                payloads.push((stream.gate(), payload))?;
                rest = &rest[used..];
            }
            Ok(_) => return Ok(None),
            Err(BadStream { at }) => return Ok(Some(at)),
        }
    }
}

// Feeds bytes in pieces of this size.
fn read(alloc: Global, bytes: &[u8], size: usize) -> Result<Reading, AllocError> {
    let mut stream = Stream::new(alloc)?;
    let mut payloads = Vec::new(alloc);
    let mut bad = None;
    let mut is_forgotten = false;
    for piece in bytes.chunks(size.max(1)) {
        let found = take_piece(alloc, &mut stream, &mut payloads, piece)?;
        if bad.is_some() && found != bad {
            is_forgotten = true;
        }
        bad = found;
    }
    Ok(Reading {
        payloads,
        bad,
        is_forgotten,
        stream,
    })
}

#[test]
fn a_store_is_read_in_any_pieces(rt: HostRuntime) -> Result<(), AllocError> {
    for size in [1, 2, 3, 5, 7, 16, 21, 22, 36] {
        let reading = read(rt.alloc(), &STORE, size)?;
        assert!(rt;
            reading.bad == None && reading.payloads.len() == 2,
            "in pieces of {size}"
        );
        assert!(rt;
            reading.payloads[0].0 == 16 && reading.payloads[0].1.as_slice() == [9].as_slice()
        );
        assert!(rt;
            reading.payloads[1].0 == 22 && reading.payloads[1].1.as_slice() == b"abc".as_slice()
        );
        assert!(rt; reading.stream.place() == Place::Ended && reading.stream.gate() == 30);
        assert!(rt; reading.stream.version() == Some(2) && reading.stream.header_length() == None);
    }
    Ok(())
}

// The header of `STORE` and these bytes.
fn after_header(alloc: Global, bytes: &[u8]) -> Result<Vec<u8>, AllocError> {
    let mut all = Vec::from_slice(alloc, &STORE[..16])?;
    all.extend_from_slice(bytes)?;
    Ok(all)
}

// The bad place of these bytes, which is the same in pieces of one byte and is never forgotten.
fn bad_place(alloc: Global, bytes: &[u8]) -> Result<Option<u64>, AllocError> {
    let whole = read(alloc, bytes, bytes.len())?;
    let cut = read(alloc, bytes, 1)?;
    if cut.is_forgotten || cut.bad != whole.bad || cut.payloads.len() != whole.payloads.len() {
        return Ok(Some(u64::MAX));
    }
    Ok(whole.bad)
}

#[test]
fn bad_bytes_of_the_front_are_named(rt: HostRuntime) -> Result<(), AllocError> {
    let alloc = rt.alloc();
    assert!(rt; bad_place(alloc, b"PZ23\x02T")? == Some(0));
    assert!(rt; bad_place(alloc, b"QY23\x02T")? == Some(1));
    assert!(rt; bad_place(alloc, b"QZ33\x02T")? == Some(2));
    assert!(rt; bad_place(alloc, b"QZ24\x02T")? == Some(3));
    assert!(rt; bad_place(alloc, b"QZ23\x00T")? == Some(4));
    assert!(rt; bad_place(alloc, b"QZ23\x03T")? == Some(4));
    // a store of states
    assert!(rt; bad_place(alloc, b"QZ23\x02S and more")? == Some(5));
    // the first of two
    assert!(rt; bad_place(alloc, b"QZ2323")? == Some(4));
    assert!(rt; bad_place(alloc, b"QZ23\x01T")? == None);
    assert!(rt; bad_place(alloc, b"QZ23\x02T")? == None);
    assert!(rt; bad_place(alloc, b"")? == None);
    Ok(())
}

#[test]
fn bad_gates_are_named(rt: HostRuntime) -> Result<(), AllocError> {
    let alloc = rt.alloc();
    // of length 0, of 32769, of the longest number, and of 0 after a payload
    assert!(rt; bad_place(alloc, &after_header(alloc, &[0xa5, 0, 0, 0, 0])?)? == Some(16));
    assert!(rt; bad_place(alloc, &after_header(alloc, &[0xa5, 0, 0, 0x80, 1, 7])?)? == Some(16));
    assert!(rt; bad_place(alloc, &after_header(alloc, &[0xa5, 255, 255, 255, 255])?)? == Some(16));
    assert!(rt;
        bad_place(
            alloc,
            &after_header(alloc, &[0xa5, 0, 0, 0, 1, 9, 0xa5, 0, 0, 0, 0])?
        )? == Some(22)
    );
    // the length isn't whole; the longest payload; a gate that isn't open, and then anything
    assert!(rt; bad_place(alloc, &after_header(alloc, &[0xa5, 0, 0, 0])?)? == None);
    assert!(rt; bad_place(alloc, &after_header(alloc, &[0xa5, 0, 0, 0x80, 0, 7])?)? == None);
    assert!(rt; bad_place(alloc, &after_header(alloc, &[0xa4, 0xa5, 0, 0, 0, 0])?)? == None);
    Ok(())
}

#[test]
fn a_store_may_break_off_anywhere(rt: HostRuntime) -> Result<(), AllocError> {
    for end in 0..37usize {
        let reading = read(rt.alloc(), &STORE[..end], end)?;
        let payloads = usize::from(end >= 22) + usize::from(end >= 30);
        assert!(rt;
            reading.bad == None && reading.payloads.len() == payloads,
            "cut at {end}"
        );
        let header = if end < 16 { Some(end) } else { None };
        assert!(rt; reading.stream.header_length() == header, "cut at {end}");
        let version = if end < 5 { None } else { Some(2) };
        assert!(rt; reading.stream.version() == version, "cut at {end}");
        assert!(rt;
            (reading.stream.place() == Place::Ended) == (end > 30),
            "cut at {end}"
        );
    }
    Ok(())
}

// Feeds a header and 16381 of the longest payloads, and answers whether each was handed out. The next gate is at 536854529,
// and 16382 bytes may follow it.
fn fill(alloc: Global, stream: &mut Stream) -> Result<bool, AllocError> {
    let mut block = after_header(alloc, &[])?;
    let mut is_whole = stream.next(&block) == Ok(Next::More);
    block.clear();
    block.extend_from_slice(&[0xa5, 0, 0, 0x80, 0])?;
    block.resize(32773, 0xa5)?;
    for _ in 0..16381 {
        is_whole = is_whole && stream.next(&block) == Ok(Next::Payload { used: 32773 });
    }
    Ok(is_whole && stream.gate() == 536854529 - 32773)
}

#[test]
fn a_store_is_at_most_two_to_the_29th_bytes_long(rt: HostRuntime) -> Result<(), AllocError> {
    let mut stream = Stream::new(rt.alloc())?;
    assert!(rt; fill(rt.alloc(), &mut stream)?);
    assert!(rt; stream.next(&[0xa5, 0, 0, 0x3f, 0xf9, 1]) == Ok(Next::More));
    // the last payload ends one byte before the limit
    let rest = vec![in rt.alloc(); 2u8; 16376]?;
    assert!(rt; stream.next(&rest) == Ok(Next::Payload { used: 16376 }));
    assert!(rt; stream.next(&[0xa5, 0, 0, 0, 1]) == Err(BadStream { at: 536870911 }));
    Ok(())
}
