//! The checkpoint at the end of a script that accepted as many transactions as make one due, and of one that accepted one less.
use crate::calls::{DONE, Wanted, answers, done, made};
use std::alloc::{AllocError, Global};

/// A line that is one transaction. Its record takes 28 bytes with its gate and its size.
const LINE: &[u8] = b"{\"do\":\"threshold\",\"ms\":60000,\"at\":0}\n";

const ROOM: &[u8] = b"{\"do\":\"show_room\"}\n";

fn lines(alloc: Global, count: usize) -> Result<Vec<u8>, AllocError> {
    let mut input = Vec::new(alloc);
    for _ in 0..count {
        input.extend_from_slice(LINE)?;
    }
    Ok(input)
}

// Whether the next call on the stores of a script of so many transactions tells this of their room.
fn leaves_room(alloc: Global, count: usize, replies: &'static str) -> bool {
    let Ok(input) = lines(alloc, count) else {
        return false;
    };
    let after = done(alloc, made(alloc), &["script"], &input);
    let wanted = Wanted { replies, ..DONE };
    answers(alloc, after, &["script"], ROOM, &wanted)
}

#[test]
fn a_checkpoint_is_due_after_4096_transactions(rt: HostRuntime) {
    // The records take 28 bytes each, and the snapshot of no rows takes 58.
    let rooms = [
        (4095, "room triggers 114676 4095 behind 4095 states 16 0\n"),
        (4096, "room triggers 114762 4097 behind 0 states 16 0\n"),
    ];
    for (count, replies) in rooms {
        assert!(rt;
            leaves_room(rt.alloc(), count, replies),
            "{count} transactions"
        );
    }
}
