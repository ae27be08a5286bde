//! A reader looks while a writer posts in another thread.
ghost use Rattle.std.specs.Prelude.{◌≡◌, Some};
ghost use mathlib.Core.List.{IsPrefix};
ghost use Rattle.qz_board.specs.Boards.{posted, offered, writer_basis, writer_board};

use crate::numbers::{Counted, Numbers, add_and_post};
use qz_board::{Board, BoardReader, BoardWriter};
use std::alloc::Global;
use std::sync::Wait;
use std::test::Fail;
use std::thread;
use std::thread::Threads;

// Posts so many numbers, one after the other, and counts the posts.
fn post_many<R: Wait>(
    rt: &R,
    writer: &mut BoardWriter<Counted>,
    numbers: &mut Numbers,
    count: u64,
) -> u64
    requires goes_on { IsPrefix (offered writer.old) numbers.old.entries.items }
    requires basis { writer_basis writer.old ≡ Some numbers.old.before }
    ensures { writer_board writer.new ≡ writer_board writer.old }
{
    let mut done = 0u64;
    for number in 0..count {
        if add_and_post(rt, writer, numbers, number) {
            done = done.wrapping_add(1);
        }
    }
    done
}

// Looks so many times. Whether the entries never fell, and whether two fields of each look belong together.
fn look_many(reader: BoardReader<Counted>, count: u64) -> (BoardReader<Counted>, bool) {
    let mut reader = reader;
    let mut least = 0u64;
    let mut rises = true;
    for _ in 0..count {
        let glance = reader.look();
        rises = rises && least <= glance.entries && glance.jobs == glance.entries;
        least = glance.entries;
    }
    (reader, rises)
}

// A reader looks in a thread while the writer posts. How often it posted, whether the looks rose, and the entries of a
// look after that.
fn look_while_posting<R: Threads + Wait>(
    rt: &R,
    alloc: Global,
    count: u64,
) -> Option<(u64, bool, u64)> {
    let mut numbers = Numbers {
        before: 0,
        entries: Vec::new(alloc),
    };
    let (mut writer, reader) = Board::new::<Counted, _, _>(rt, alloc, &numbers).ok()?;
    let child = thread::spawn(rt, move || look_many(reader, count));
    let done = post_many(rt, &mut writer, &mut numbers, count);
    let seen = match child {
        Ok(child) => {
            let (mut reader, rises) = child.join(rt);
            Some((done, rises, reader.look().entries))
        }
        Err(_) => None,
    };
    writer.close(rt);
    seen
}

#[test]
fn looks_never_fall(rt: HostRuntime) -> Result<(), Fail> {
    let seen = look_while_posting(&rt, rt.alloc(), 20_000).ok_or("no memory")?;
    assert_eq!(rt; seen, (20_000, true, 20_000));
    Ok(())
}
