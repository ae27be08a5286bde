//! Two threads add to one list.
ghost use Rattle.std.specs.Prelude.{◌≡◌, ◌++◌, [], ◌∷◌, false};
ghost use Rattle.qz_row_lock.specs.Seats.{IsOf, is_out};

use crate::numbers::{Entry, Numbers};
use qz_row_lock::{RowLock, Seat};
use std::alloc::Global;
use std::sync::Wait;
use std::test::Fail;
use std::thread::{Threads, join};

// Adds one number. Without memory it is left out.
fn add(rt: &impl Wait, lock: &RowLock<Numbers>, seat: &mut Seat<Numbers>, value: u64)
    requires of { IsOf lock.now seat.old }
    requires home { is_out seat.old ≡ false }
    ensures of { IsOf lock.now seat.new }
    ensures home { is_out seat.new ≡ false }
    ensures parts { seat.new.parts ≡ seat.old.parts }
{
    let mut numbers = lock.take(rt, seat);
    let _ = numbers.add(Entry {
        seat: seat.number,
        value,
    });
    lock.give(seat, numbers);
}

// Adds the numbers below a count.
fn add_many(
    rt: &impl Wait,
    lock: &RowLock<Numbers>,
    seat: Seat<Numbers>,
    count: u64,
) -> Seat<Numbers>
    requires { IsOf lock.now seat × (is_out seat ≡ false) }
    ensures { IsOf lock.now result × (is_out result ≡ false) × (result.parts ≡ seat.parts) }
{
    let mut seat = seat;
    for value in 0..count {
        add(rt, lock, &mut seat, value);
    }
    seat
}

// Two threads add the numbers below a count each, and the whole list comes back.
fn add_in_threads<R: Threads + Wait + Sync>(rt: &R, alloc: Global, count: u64) -> Option<Numbers> {
    let numbers = Numbers {
        entries: Vec::new(alloc),
        closed: false,
    };
    let Ok((lock, seat)) = RowLock::new(alloc, numbers) else {
        return None;
    };
    let (one, two) = lock.split(seat);
    let shared = &lock;
    let (one, two) = join(
        rt,
        move || -> Seat<Numbers>
            requires { IsOf shared.now one × (is_out one ≡ false) }
            ensures { IsOf shared.entry.now result × (is_out result ≡ false) × (result.parts ≡ one.parts) }
        { add_many(rt, shared, one, count) },
        move || -> Seat<Numbers>
            requires { IsOf shared.now two × (is_out two ≡ false) }
            ensures { IsOf shared.entry.now result × (is_out result ≡ false) × (result.parts ≡ two.parts) }
        { add_many(rt, shared, two, count) },
    );
    let seat = lock.join(one, two);
    Some(lock.close(seat))
}

#[test]
fn no_number_is_lost(rt: HostRuntime) -> Result<(), Fail> {
    let numbers = add_in_threads(&rt, rt.alloc(), 20_000).ok_or("no memory")?;
    assert_eq!(rt; numbers.entries.len(), 40_000);
    // The value that each seat adds next.
    let mut first = 0u64;
    let mut second = 0u64;
    for entry in numbers.entries.as_slice() {
        if entry.seat == 0 {
            assert_eq!(rt; entry.value, first);
            first = first.wrapping_add(1);
        } else {
            assert_eq!(rt; entry.value, second);
            second = second.wrapping_add(1);
        }
    }
    assert_eq!(rt; (first, second), (20_000, 20_000));
    Ok(())
}
