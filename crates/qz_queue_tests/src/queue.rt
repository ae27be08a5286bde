//! The due queue: worked edits, and the number of comparisons of 1000 insertions.
ghost use Rattle.std.specs.Prelude.{◌≡◌, ◌+◌, ◌-◌, ◌<◌, ◌≤◌, length, ℕ, None, OnOk, nat_le};
ghost use Rattle.std.specs.List.{All};
ghost use Rattle.qz_queue.specs.Order.{key_of, IsKeyFree};

use qz_queue::{Choice, DueQueue, Tally};
use std::alloc::AllocError;

const KEYS: u64 = 1000;

// The most comparisons that a call may make in a queue of this many pairs: 2 d + 2, for the greatest d with 2^d at most
// 2 n + 1.
fn most_comparisons(pairs: u64) -> u64
    requires { pairs < 1000 }
{
    2 * u64::from((2 * pairs + 1).ilog2()) + 2
}

// Puts in a slot whose key stands before all others, and answers how many comparisons that took.
fn insert_lowest(queue: &mut DueQueue<u64>, slot: usize, due: u64, tally: &mut Tally) -> u64
    requires place { slot < queue.old.places }
    requires room { 0 < queue.old.spare }
    requires slots { All (λ pair. pair.1 < slot) queue.old.pairs }
    requires keys { All (λ pair. due < pair.0) queue.old.pairs }
    ensures places { queue.new.places ≡ queue.old.places }
    ensures room { queue.old.spare ≤ queue.new.spare + 1 }
    ensures slots { All (λ pair. pair.1 < slot + 1) queue.new.pairs }
    ensures keys { All (λ pair. due ≤ pair.0) queue.new.pairs }
{
    let before = tally.compared();
    queue.insert(slot, due, tally);
    tally.compared().saturating_sub(before)
}

#[test]
fn falling_keys(rt: HostRuntime) -> Result<(), AllocError> {
    let mut queue = DueQueue::new(rt.alloc());
    queue.reserve(1000, 1000)?;
    let mut tally = Tally::new();
    let mut highest = 0;
    for pairs in 0..KEYS {
        let made = insert_lowest(&mut queue, pairs as usize, KEYS - pairs, &mut tally);
        assert!(rt;
            made <= most_comparisons(pairs),
            "{made} comparisons among {pairs}"
        );
        highest = highest.max(made);
    }
    assert!(rt; highest <= 22, "{highest} comparisons");
    assert!(rt; queue.first() == Some((&1, 999)));
    Ok(())
}

#[test]
fn keys_change(rt: HostRuntime) -> Result<(), AllocError> {
    let mut queue = DueQueue::new(rt.alloc());
    queue.reserve(3, 3)?;
    let mut tally = Tally::new();
    queue.insert(0, 30, &mut tally);
    queue.insert(1, 10, &mut tally);
    queue.insert(2, 20, &mut tally);
    assert!(rt; queue.first() == Some((&10, 1)));
    assert!(rt; queue.change(1, 40, &mut tally) == 10);
    assert!(rt; queue.first() == Some((&20, 2)));
    assert!(rt; queue.remove(2, &mut tally) == Some(20));
    assert!(rt; queue.remove(2, &mut tally) == None);
    assert!(rt; queue.remove(0, &mut tally) == Some(30));
    assert!(rt; queue.first() == Some((&40, 1)));
    assert!(rt; queue.remove(1, &mut tally) == Some(40));
    assert!(rt; queue.first() == None);
    Ok(())
}

// Wants the slots from this one on.
#[derive(Drop)]
struct From(usize);

impl Choice for From {
    ghost wants = { λ from slot. nat_le from.0 slot };

    fn is_wanted(&self, slot: usize) -> bool {
        self.0 <= slot
    }
}

// The slot of the first pair after this key whose slot is wanted.
fn slot_after(queue: &DueQueue<u64>, due: Option<u64>, from: usize) -> Option<usize> {
    let found = queue.first_of(due.as_ref(), &From(from), &mut Tally::new());
    found.map(|pair| pair.1)
}

#[test]
fn pairs_follow_each_other(rt: HostRuntime) -> Result<(), AllocError> {
    let mut queue = DueQueue::new(rt.alloc());
    queue.reserve(3, 3)?;
    let mut tally = Tally::new();
    queue.insert(0, 30, &mut tally);
    queue.insert(1, 10, &mut tally);
    queue.insert(2, 20, &mut tally);
    assert!(rt; slot_after(&queue, None, 0) == Some(1));
    assert!(rt; slot_after(&queue, Some(10), 0) == Some(2));
    assert!(rt; slot_after(&queue, Some(25), 0) == Some(0));
    assert!(rt; slot_after(&queue, Some(30), 0) == None);
    assert!(rt; slot_after(&queue, None, 2) == Some(2));
    assert!(rt; slot_after(&queue, None, 3) == None);
    Ok(())
}
