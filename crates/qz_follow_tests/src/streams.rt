//! A store's bytes, fed in pieces.
use qz_follow::{FollowFault, Follower, Keeping};
use std::alloc::{AllocError, Global};

// A store of version 2 with six entries: AddJob, AddTrigger, Join, Acquire, Fire and Complete, with gates at 16, 63, 146, 169,
// 220, 259 and 299.
pub(crate) const STORE: &[u8] = b"QZ23\x02T\x00\x00\x00\x00\x00\x00\x00\x00\x00\x00\
    \xa5\x00\x00\x00*\x02\x00\x00\x01\x8c\xc2Q\xf4\x00\x00\x00\x00\x00\x00\x00\x00\x07DEFAUL\
    T\x00\x06report\x00\x02ok\x00\x00\x00\x00\x00\x00\
    \xa5\x00\x00\x00N\x02\x00\x00\x01\x8c\xc2Q\xf4\x00\x00\x00\x00\x00\x00\x02\x00\x07DEFAUL\
    T\x00\x02t1\x00\x07DEFAULT\x00\x06report\x00\x00\x00\x05\x00\x00\x00\x00\x00\x00\x00\x00\
    \x00\x00\x00\x00\x00\x00\x00\x00\x00\x00\x00\x00\x00\x01\x8c\xc2Q\xf4\x00\x00\x00\
    \xa5\x00\x00\x00\x12\x02\x00\x00\x01\x8c\xc2Q\xf4\x00\x00\x00\x00\x00\x00\x0e\x00\x01A\
    \xa5\x00\x00\x00.\x02\x00\x00\x01\x8c\xc2Q\xf4\x00\x01\x00\x01A\x00\x00\x00\x00\x00\x00\
    \x00\x01\x00\x00\x00\x00\x10\x00\x00\x01\x8c\xc2Q\xf4\x00\x00\x00\x00\x00\x00\x00\x00\
    \x00\x00\x00\x00\x01\
    \xa5\x00\x00\x00\x22\x02\x00\x00\x01\x8c\xc2Q\xf4\x00\x01\x00\x01A\x00\x00\x00\x00\x00\
    \x00\x00\x01\x00\x00\x00\x00\x12\x00\x00\x00\x00\x00\x00\x00\x01\
    \xa5\x00\x00\x00#\x02\x00\x00\x01\x8c\xc2Q\xf4\x00\x01\x00\x01A\x00\x00\x00\x00\x00\x00\
    \x00\x01\x00\x00\x00\x00\x13\x00\x00\x00\x00\x00\x00\x00\x01\x00\
    \x00";

// What a follower answers to the last piece and to an empty one after it, and what its calls say then.
#[derive(Clone, Copy, PartialEq, Eq)]
struct Seen {
    answer: Result<u64, FollowFault>,
    again: Result<u64, FollowFault>,
    acknowledged: u64,
    ended: bool,
    last_moment: i64,
}

// Feeds these bytes in pieces of this size, and then one more piece.
fn feed_each(follower: &mut Follower, bytes: &[u8], size: usize, last: &[u8]) -> Seen {
    for piece in bytes.chunks(size.max(1)) {
        let _ = follower.feed(piece);
    }
    Seen {
        answer: follower.feed(last),
        again: follower.feed(&[]),
        acknowledged: follower.acknowledged(),
        ended: follower.ended(),
        last_moment: follower.tables().last_moment(),
    }
}

// The same, with a new follower.
fn feed_all(alloc: Global, bytes: &[u8], size: usize, last: &[u8]) -> Option<Seen> {
    let mut follower = Follower::new(alloc, Keeping::Payloads).ok()?;
    Some(feed_each(&mut follower, bytes, size, last))
}

// Whether these bytes have so many entries, and end so, in pieces of one byte, of seven and in one piece.
fn has(alloc: Global, bytes: &[u8], entries: u64, ended: bool) -> bool {
    let want = Some(Seen {
        answer: Ok(entries),
        again: Ok(entries),
        acknowledged: entries,
        ended,
        last_moment: 1704067200000,
    });
    feed_all(alloc, bytes, 1, &[]) == want
        && feed_all(alloc, bytes, 7, &[]) == want
        && feed_all(alloc, &[], 1, bytes) == want
}

#[test]
fn a_store_is_followed_in_any_pieces(rt: HostRuntime) {
    let alloc = rt.alloc();
    assert!(rt; has(alloc, STORE, 6, true));
    // the last payload isn't whole
    assert!(rt; has(alloc, &STORE[..297], 5, false));
}

#[test]
fn a_fault_stays(rt: HostRuntime) {
    let bad = Err(FollowFault::BadStream { at: 299 });
    // an empty payload, and then a byte that would end the stream
    let seen = feed_all(rt.alloc(), &STORE[..299], 7, &[0xa5, 0, 0, 0, 0, 0]);
    let want = Seen {
        answer: bad,
        again: bad,
        acknowledged: 6,
        ended: false,
        last_moment: 1704067200000,
    };
    assert!(rt; seen == Some(want));
}

// A payload of one byte, the first of each piece of a snapshot.
const PIECE: &[u8] = b"\xa5\x00\x00\x00\x01\xf1";

// What a follower says that has taken so many entries, with no fault.
fn took(entries: u64, last_moment: i64) -> Seen {
    Seen {
        answer: Ok(entries),
        again: Ok(entries),
        acknowledged: entries,
        ended: false,
        last_moment,
    }
}

#[test]
fn parts_of_snapshots_are_passed_over(rt: HostRuntime) {
    let alloc = rt.alloc();
    // before the first record, where no slot is open, and behind it
    let first = feed_all(alloc, &STORE[..16], 7, PIECE);
    assert!(rt;
        first == Some(took(0, 0))
            && feed_all(alloc, &STORE[..63], 7, PIECE) == Some(took(1, 1704067200000))
    );
}

// A store of version 2 whose slot A leads to a snapshot, and an entry behind that: Join of B. The tables of the snapshot have the member A,
// and the recorded moment 1704067200000. Its gates are at 16, 74, 95 and 118.
pub(crate) const BASED: &[u8] = b"QZ23\x02T\xa5\x00\x00\x00\x10\x00\x00\x00\x00\x00\
    \xa5\x00\x00\x005\xf0\x00\x00\x00\x00\x00\x00\x00\x00\x00\x00\x00\x01\x00\x00\x00\x00\x00\x00\x00\x02\
    \x00\x00\x00\x00\x00\x00\x00\x02\x00\x00\x00\x00\x00\x00\xea`\x00\x00\x01\x8c\xc2Q\xf4\x00\x00\x00\x06\x99\xe9\x91\xa7\xff\
    \xa5\x00\x00\x00\x10\xf1\x05\x00\x0c\x02\x00\x01A\x00\x00\x00\x00\x00\x00\x00\x01\
    \xa5\x00\x00\x00\x12\x02\x00\x00\x01\x8c\xc2R\xde`\x00\x00\x00\x00\x00\x0e\x00\x01B\
    \x00";

#[test]
fn a_first_snapshot_is_a_base(rt: HostRuntime) {
    let alloc = rt.alloc();
    let whole = Some(Seen {
        ended: true,
        ..took(1, 1704067260000)
    });
    assert!(rt; feed_all(alloc, BASED, 1, &[]) == whole && feed_all(alloc, &[], 1, BASED) == whole);
    // the base alone, and a base that isn't whole
    assert!(rt;
        feed_all(alloc, &BASED[..95], 7, &[]) == Some(took(0, 1704067200000))
            && feed_all(alloc, &BASED[..94], 7, &[]) == Some(took(0, 0))
    );
}

#[test]
fn a_slot_without_a_snapshot_is_bad(rt: HostRuntime) -> Result<(), AllocError> {
    let bad = Err(FollowFault::BadStream { at: 6 });
    let mut bytes = Vec::from_slice(rt.alloc(), BASED)?;
    // it leads into the head
    bytes[10] = 17;
    let seen = feed_all(rt.alloc(), &bytes, 7, &[]);
    let want = Seen {
        answer: bad,
        again: bad,
        ..took(0, 0)
    };
    assert!(rt; seen == Some(want));
    Ok(())
}
