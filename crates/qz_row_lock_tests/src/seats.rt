//! Two seats of one thread take turns.
use crate::numbers::{Entry, Numbers};
use qz_row_lock::RowLock;
use std::test::Fail;

#[test]
fn two_seats_take_turns(rt: HostRuntime) -> Result<(), Fail> {
    let numbers = Numbers {
        entries: Vec::new(rt.alloc()),
        closed: false,
    };
    let Ok((lock, seat)) = RowLock::new(rt.alloc(), numbers) else {
        panic!(rt; "no memory")
    };
    let (mut one, mut two) = lock.split(seat);
    let mut numbers = lock.take(&rt, &mut one);
    numbers.entries.push(Entry {
        seat: one.number,
        value: 7,
    })?;
    lock.give(&mut one, numbers);
    let note = lock.tell(&mut one);
    lock.learn(&mut two, note);
    let mut numbers = lock.take(&rt, &mut two);
    assert_eq!(rt; numbers.entries.len(), 1);
    numbers.entries.push(Entry {
        seat: two.number,
        value: 8,
    })?;
    numbers.closed = true;
    lock.give(&mut two, numbers);
    assert_eq!(rt;
        (one.number, one.more, one.parts),
        (0, 2_147_483_647, 2_147_483_648)
    );
    assert_eq!(rt;
        (two.number, two.more, two.parts),
        (2_147_483_648, 2_147_483_647, 2_147_483_648)
    );
    let seat = lock.join(two, one);
    let numbers = lock.close(seat);
    let first = Entry { seat: 0, value: 7 };
    let second = Entry {
        seat: 2_147_483_648,
        value: 8,
    };
    assert_eq!(rt; numbers.entries.as_slice(), [first, second].as_slice());
    Ok(())
}
