//! Edits of a heap with a table of places.
ghost use Rattle.std.specs.Prelude.{◌≡◌, ◌≢◌, ◌+◌, ◌-◌, ◌*◌, ◌/◌, ◌^◌, ◌<◌, ◌≤◌, length, ℕ, [], ◌∷◌, ◌++◌, vec_len, vec_capacity, IfSome, IfNone, Some, None};
ghost use Rattle.std.specs.List.{HoldsAt, SwappedAt};
ghost use Rattle.std.specs.List.Sorted.{IsPermutation};
ghost use Rattle.qz_queue.specs.Order.{AreKnown, KeepsKnown, IsLogarithmic, put_pair, in_order, key_of, without_slot};
ghost use Rattle.qz_queue.specs.Lists.{Every};
ghost use Rattle.qz_queue.specs.Heap.{IsHeap, IsHeapBut, IsPlaced};
ghost use Rattle.qz_queue.specs.Queue.{IsIndexed};

use crate::order::{Compare, Ranked};
use crate::sifts::{exchange, rise, sink};
use std::mem;

// Moves the pair at a place to where it belongs, up or down.
fn settle<K: Ranked, C: Compare<K>>(
    heap: &mut [(K, usize)],
    places: &mut [usize],
    at: usize,
    compare: &mut C,
)
    requires within { at < length heap.old }
    requires placed { IsPlaced heap.old places.old }
    requires heap { IsHeapBut K.stands_before heap.old at }
    requires known { AreKnown (C.Knows compare.old) heap.old }
    ensures permutation { IsPermutation heap.old heap.new }
    ensures placed { IsPlaced heap.new places.new }
    ensures heap { IsHeap K.stands_before heap.new }
    ensures calls { IsLogarithmic (length heap.old) (C.count compare.old) (C.count compare.new) }
    ensures knows { KeepsKnown (C.Knows compare.old) (C.Knows compare.new) }
{
    let to = rise(heap, places, at, compare);
    if to == at {
        sink(heap, places, to, compare);
    }
}

// Moves the last pair up to where it belongs.
fn lift_last<K: Ranked, C: Compare<K>>(
    heap: &mut [(K, usize)],
    places: &mut [usize],
    compare: &mut C,
)
    requires some { 0 < length heap.old }
    requires placed { IsPlaced heap.old places.old }
    requires heap { IsHeapBut K.stands_before heap.old (length heap.old - 1) }
    requires known { AreKnown (C.Knows compare.old) heap.old }
    ensures permutation { IsPermutation heap.old heap.new }
    ensures placed { IsPlaced heap.new places.new }
    ensures heap { IsHeap K.stands_before heap.new }
    ensures calls { IsLogarithmic (length heap.old - 1) (C.count compare.old) (C.count compare.new) }
    ensures knows { KeepsKnown (C.Knows compare.old) (C.Knows compare.new) }
{
    let last = heap.len() - 1;
    rise(heap, places, last, compare);
}

fn lift_in<K: Ranked, C: Compare<K>>(
    heap: &mut Vec<(K, usize)>,
    places: &mut [usize],
    compare: &mut C,
)
    requires some { 0 < length heap.old.items }
    requires placed { IsPlaced heap.old.items places.old }
    requires heap { IsHeapBut K.stands_before heap.old.items (length heap.old.items - 1) }
    requires known { AreKnown (C.Knows compare.old) heap.old.items }
    ensures permutation { IsPermutation heap.old.items heap.new.items }
    ensures placed { IsPlaced heap.new.items places.new }
    ensures heap { IsHeap K.stands_before heap.new.items }
    ensures len { vec_len heap.new ≡ vec_len heap.old }
    ensures capacity { vec_capacity heap.new ≡ vec_capacity heap.old }
    ensures calls { IsLogarithmic (length heap.old.items - 1) (C.count compare.old) (C.count compare.new) }
    ensures knows { KeepsKnown (C.Knows compare.old) (C.Knows compare.new) }
{
    lift_last(heap, places, compare);
}

fn settle_in<K: Ranked, C: Compare<K>>(
    heap: &mut Vec<(K, usize)>,
    places: &mut [usize],
    at: usize,
    compare: &mut C,
)
    requires within { at < length heap.old.items }
    requires placed { IsPlaced heap.old.items places.old }
    requires heap { IsHeapBut K.stands_before heap.old.items at }
    requires known { AreKnown (C.Knows compare.old) heap.old.items }
    ensures permutation { IsPermutation heap.old.items heap.new.items }
    ensures placed { IsPlaced heap.new.items places.new }
    ensures heap { IsHeap K.stands_before heap.new.items }
    ensures len { vec_len heap.new ≡ vec_len heap.old }
    ensures capacity { vec_capacity heap.new ≡ vec_capacity heap.old }
    ensures calls { IsLogarithmic (length heap.old.items) (C.count compare.old) (C.count compare.new) }
    ensures knows { KeepsKnown (C.Knows compare.old) (C.Knows compare.new) }
{
    settle(heap, places, at, compare);
}

fn exchange_in<K>(heap: &mut Vec<(K, usize)>, places: &mut [usize], low: usize, high: usize)
    requires order { low < high }
    requires within { high < length heap.old.items }
    requires placed { IsPlaced heap.old.items places.old }
    ensures swapped { SwappedAt heap.old.items heap.new.items low high }
    ensures permutation { IsPermutation heap.old.items heap.new.items }
    ensures placed { IsPlaced heap.new.items places.new }
    ensures len { vec_len heap.new ≡ vec_len heap.old }
    ensures capacity { vec_capacity heap.new ≡ vec_capacity heap.old }
{
    exchange(heap, places, low, high);
}

// The place of a slot in the heap.
pub(crate) fn find<K>(heap: &[(K, usize)], places: &[usize], slot: usize) -> Option<usize>
    requires { IsPlaced heap.now places.now }
    ensures within { IfSome result (λ at. at < length heap.now) }
    ensures held { IfSome result (λ at. HoldsAt (λ y. y.1 ≡ slot) heap.now at) }
    ensures missing { IfNone result (Every (λ y. y.1 ≢ slot) heap.now) }
{
    let place = slot;
    if place >= places.len() {
        return None;
    }
    let at = places[place];
    if at >= heap.len() {
        return None;
    }
    if heap[at].1 == slot { Some(at) } else { None }
}

fn append<K: Ranked>(heap: &mut Vec<(K, usize)>, due: K, slot: usize)
    requires { vec_len heap.old < vec_capacity heap.old }
    ensures items { heap.new.items ≡ heap.old.items ++ (due, slot) ∷ [] }
    ensures len { vec_len heap.new ≡ vec_len heap.old + 1 }
    ensures capacity { vec_capacity heap.old ≤ vec_capacity heap.new }
{
    match heap.push((due, slot)) {
        Ok(()) => {}
        Err(_) => unreachable!(),
    }
}

fn pop_last<K>(heap: &mut Vec<(K, usize)>) -> K
    requires { 0 < vec_len heap.old }
    ensures items { (slot : ℕ) × (heap.old.items ≡ heap.new.items ++ (result, slot) ∷ []) }
    ensures len { vec_len heap.new + 1 ≡ vec_len heap.old }
    ensures capacity { vec_capacity heap.new ≡ vec_capacity heap.old }
{
    match heap.pop() {
        Some((key, _)) => key,
        None => unreachable!(),
    }
}

// Puts a pair in.
pub(crate) fn add<K: Ranked, C: Compare<K>>(
    heap: &mut Vec<(K, usize)>,
    places: &mut [usize],
    slot: usize,
    due: K,
    compare: &mut C,
)
    requires indexed { IsIndexed K.stands_before heap.old.items places.old }
    requires place { slot < length places.old }
    requires absent { Every (λ y. y.1 ≢ slot) heap.old.items }
    requires free { Every (λ y. y.0 ≢ due) heap.old.items }
    requires room { vec_len heap.old < vec_capacity heap.old }
    requires known { AreKnown (C.Knows compare.old) heap.old.items }
    requires due { C.Knows compare.old due }
    ensures indexed { IsIndexed K.stands_before heap.new.items places.new }
    ensures pairs { in_order K.stands_before heap.new.items ≡ put_pair K.stands_before (due, slot) (in_order K.stands_before heap.old.items) }
    ensures len { vec_len heap.new ≡ vec_len heap.old + 1 }
    ensures capacity { vec_capacity heap.old ≤ vec_capacity heap.new }
    ensures calls { IsLogarithmic (length heap.old.items) (C.count compare.old) (C.count compare.new) }
    ensures knows { KeepsKnown (C.Knows compare.old) (C.Knows compare.new) }
{
    let at = heap.len();
    append(heap, due, slot);
    places[slot] = at;
    lift_in(heap, places, compare);
}

// Takes out the pair at a place.
pub(crate) fn take_out<K: Ranked, C: Compare<K>>(
    heap: &mut Vec<(K, usize)>,
    places: &mut [usize],
    at: usize,
    slot: usize,
    compare: &mut C,
) -> K
    requires indexed { IsIndexed K.stands_before heap.old.items places.old }
    requires within { at < vec_len heap.old }
    requires held { HoldsAt (λ y. y.1 ≡ slot) heap.old.items at }
    requires known { AreKnown (C.Knows compare.old) heap.old.items }
    ensures indexed { IsIndexed K.stands_before heap.new.items places.new }
    ensures pairs { in_order K.stands_before heap.old.items ≡ put_pair K.stands_before (result, slot) (in_order K.stands_before heap.new.items) }
    ensures others { Every (λ y. y.1 ≢ slot) heap.new.items }
    ensures len { vec_len heap.new + 1 ≡ vec_len heap.old }
    ensures capacity { vec_capacity heap.new ≡ vec_capacity heap.old }
    ensures calls { IsLogarithmic (length heap.old.items) (C.count compare.old) (C.count compare.new) }
    ensures knows { KeepsKnown (C.Knows compare.old) (C.Knows compare.new) }
{
    let last = heap.len() - 1;
    if at == last {
        return pop_last(heap);
    }
    exchange_in(heap, places, at, last);
    let key = pop_last(heap);
    settle_in(heap, places, at, compare);
    key
}

// Gives the pair at a place a new key.
pub(crate) fn change_at<K: Ranked, C: Compare<K>>(
    heap: &mut [(K, usize)],
    places: &mut [usize],
    at: usize,
    slot: usize,
    due: K,
    compare: &mut C,
) -> K
    requires indexed { IsIndexed K.stands_before heap.old places.old }
    requires within { at < length heap.old }
    requires held { HoldsAt (λ y. y.1 ≡ slot) heap.old at }
    requires free { Every (λ y. y.0 ≡ due → y.1 ≡ slot) heap.old }
    requires known { AreKnown (C.Knows compare.old) heap.old }
    requires due { C.Knows compare.old due }
    ensures indexed { IsIndexed K.stands_before heap.new places.new }
    ensures key { key_of slot (in_order K.stands_before heap.old) ≡ Some result }
    ensures pairs { in_order K.stands_before heap.new ≡ put_pair K.stands_before (due, slot) (without_slot slot (in_order K.stands_before heap.old)) }
    ensures now { key_of slot (in_order K.stands_before heap.new) ≡ Some due }
    ensures calls { IsLogarithmic (length heap.old) (C.count compare.old) (C.count compare.new) }
    ensures knows { KeepsKnown (C.Knows compare.old) (C.Knows compare.new) }
{
    let old = mem::replace(&mut heap[at], (due, slot));
    settle(heap, places, at, compare);
    old.0
}
