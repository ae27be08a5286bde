//! A writer and a reader in one thread.
ghost use Rattle.std.specs.Prelude.{◌≡◌, ◌≤◌, length, Some, IfSome};
ghost use mathlib.Core.List.{IsPrefix};
ghost use Rattle.qz_board.specs.Posts.{Shows};
ghost use Rattle.qz_board.specs.Boards.{posted, writer_board, seen, reader_basis, reader_board};

use crate::numbers::{Counted, Numbers, add_and_post, glance_of};
use qz_board::{Board, BoardReader, BoardWriter, Glance, Subject, crosses_threads};
use std::alloc::Global;
use std::sync::Wait;
use std::test::Fail;

// Looks after the reader was told what the writer had posted.
fn look_informed<K: Subject>(writer: &BoardWriter<K>, reader: &mut BoardReader<K>) -> Glance
    requires { reader_board reader.old ≡ writer_board writer.now }
    ensures told { IsPrefix (posted writer.now) (seen reader.new) }
    ensures later { IsPrefix (seen reader.old) (seen reader.new) }
    ensures glance { Shows K.glance_of (reader_basis reader.new) (seen reader.new) result }
{
    reader.learn(writer.tell());
    reader.look()
}

// What a reader sees at first, after a post, once it was told, and after the end. There is none without memory.
fn looks<R: Wait>(rt: &R, alloc: Global) -> Option<[Glance; 4]> {
    let mut numbers = Numbers {
        before: 5,
        entries: Vec::new(alloc),
    };
    numbers.add(7).ok()?;
    let (mut writer, mut reader) = Board::new::<Counted, _, _>(rt, alloc, &numbers).ok()?;
    let first = reader.look();
    let posted = add_and_post(rt, &mut writer, &mut numbers, 8);
    let second = reader.look();
    let third = look_informed(&writer, &mut reader);
    writer.close(rt);
    let last = reader.look();
    posted.then_some([first, second, third, last])
}

#[test]
fn each_look_shows_what_was_posted(rt: HostRuntime) -> Result<(), Fail> {
    let [first, second, third, last] = looks(&rt, rt.alloc()).ok_or("no memory")?;
    assert_eq!(rt; first, glance_of(5, 1));
    assert_eq!(rt;
        (second, third, last),
        (glance_of(5, 2), glance_of(5, 2), glance_of(5, 2))
    );
    crosses_threads::<Counted>();
    Ok(())
}
