//! Steps in a heap with a table of places.
ghost use Rattle.std.specs.Prelude.{◌≡◌, ◌≢◌, ◌+◌, ◌-◌, ◌*◌, ◌/◌, ◌^◌, ◌<◌, ◌≤◌, length, ℕ};
ghost use Rattle.std.specs.List.{swap, SwappedAt};
ghost use Rattle.std.specs.List.Sorted.{IsPermutation};
ghost use Rattle.qz_queue.specs.Heap.{IsHeap, IsHeapBut, IsOverChildren, IsUnderParent, IsPlaced, ComparesAt};
ghost use Rattle.qz_queue.specs.Order.{AreKnown, KeepsKnown};
ghost use Rattle.qz_queue.specs.Sift.{HasRisen, IsClimb, IsFall};

use crate::order::{Compare, Ranked};

// Exchanges two pairs, with their places.
#[tactic(auto, using(crate::proofs::Heaps::placed_exchanged))]
pub(crate) fn exchange<K>(heap: &mut [(K, usize)], places: &mut [usize], low: usize, high: usize)
    requires order { low < high }
    requires within { high < length heap.old }
    requires placed { IsPlaced heap.old places.old }
    ensures swapped { SwappedAt heap.old heap.new low high }
    ensures permutation { IsPermutation heap.old heap.new }
    ensures placed { IsPlaced heap.new places.new }
{
    heap.swap(low, high);
    let first = heap[low].1;
    let second = heap[high].1;
    places[first] = low;
    places[second] = high;
}

// Whether the one pair stands before the other.
pub(crate) fn compare_at<K: Ranked, C: Compare<K>>(
    heap: &[(K, usize)],
    first: usize,
    second: usize,
    compare: &mut C,
) -> bool
    requires first { first < length heap.now }
    requires second { second < length heap.now }
    requires known { AreKnown (C.Knows compare.old) heap.now }
    ensures answer { ComparesAt K.stands_before heap.now first second result }
    ensures calls { C.count compare.new ≤ C.count compare.old + 1 }
    ensures knows { KeepsKnown (C.Knows compare.old) (C.Knows compare.new) }
{
    compare.before(&heap[first].0, &heap[second].0)
}

// Moves the pair at a place up, until it does not stand before its parent.
pub(crate) fn rise<K: Ranked, C: Compare<K>>(
    heap: &mut [(K, usize)],
    places: &mut [usize],
    start: usize,
    compare: &mut C,
) -> usize
    requires within { start < length heap.old }
    requires placed { IsPlaced heap.old places.old }
    requires heap { IsHeapBut K.stands_before heap.old start }
    requires known { AreKnown (C.Knows compare.old) heap.old }
    ensures permutation { IsPermutation heap.old heap.new }
    ensures placed { IsPlaced heap.new places.new }
    ensures risen { HasRisen K.stands_before heap.old heap.new start result }
    ensures under { IsUnderParent K.stands_before heap.new result }
    ensures calls { (s : ℕ) × IsClimb s start result × (C.count compare.new ≤ C.count compare.old + s + 1) }
    ensures knows { KeepsKnown (C.Knows compare.old) (C.Knows compare.new) }
{
    let mut at = start;
    while at > 0 {
        let parent = (at - 1) / 2;
        if !compare_at(heap, at, parent, compare) {
            return at;
        }
        exchange(heap, places, parent, at);
        at = parent;
    }
    at
}

// The child that stands before the other, or the only one.
fn first_child<K: Ranked, C: Compare<K>>(heap: &[(K, usize)], at: usize, compare: &mut C) -> usize
    requires inner { at < length heap.now / 2 }
    requires known { AreKnown (C.Knows compare.old) heap.now }
    ensures parent { (result - 1) / 2 ≡ at }
    ensures within { (0 < result) × (result < length heap.now) }
    ensures best { IsOverChildren K.stands_before heap.now at result }
    ensures calls { C.count compare.new ≤ C.count compare.old + 1 }
    ensures knows { KeepsKnown (C.Knows compare.old) (C.Knows compare.new) }
{
    let left = 2 * at + 1;
    let right = left + 1;
    if right < heap.len() && compare_at(heap, right, left, compare) {
        right
    } else {
        left
    }
}

// Moves the pair at a place down, until no child stands before it.
pub(crate) fn sink<K: Ranked, C: Compare<K>>(
    heap: &mut [(K, usize)],
    places: &mut [usize],
    start: usize,
    compare: &mut C,
)
    requires within { start < length heap.old }
    requires placed { IsPlaced heap.old places.old }
    requires heap { IsHeapBut K.stands_before heap.old start }
    requires under { IsUnderParent K.stands_before heap.old start }
    requires known { AreKnown (C.Knows compare.old) heap.old }
    ensures permutation { IsPermutation heap.old heap.new }
    ensures placed { IsPlaced heap.new places.new }
    ensures heap { IsHeap K.stands_before heap.new }
    ensures calls { (s : ℕ) × (2 ^ s ≤ length heap.old) × (C.count compare.new ≤ C.count compare.old + 2 * s + 2) }
    ensures knows { KeepsKnown (C.Knows compare.old) (C.Knows compare.new) }
{
    let mut at = start;
    while at < heap.len() / 2 {
        let child = first_child(heap, at, compare);
        if !compare_at(heap, child, at, compare) {
            return;
        }
        exchange(heap, places, at, child);
        at = child;
    }
}
