//! Slots in the order of their due keys.
ghost use Rattle.std.specs.Prelude.{◌≡◌, ◌≢◌, ◌+◌, ◌<◌, ◌≤◌, length, ℕ, [], ◌∷◌, Some, None, OnOk, OnSome, IsOk, IsSome, option_map, vec_len, slice_index, slice_get, filter, true, false, IfSome, option_copied};
ghost use Rattle.qz_queue.specs.Order.{AreKnown, KeepsKnown, IsLogarithmic, IsKeyFree, put_pair, key_of, without_slot, AreAscending, AreSlotsApart};
ghost use Rattle.qz_queue.specs.Walk.{is_wanted};

use crate::edits::{add, change_at, find, take_out};
use crate::order::{Compare, Ranked};
use crate::walks::{Choice, first_wanted};
use std::alloc::{AllocError, Global};
use std::marker::Model;

/// Slots, each with its due key, in the order of the keys. No two slots have one key, and no slot has two keys.
///
/// It is a binary heap, with a table of the place that each slot has in it. Contracts see the list `pairs` of keys and
/// slots in order, the number `spare` of pairs that go in without memory, and the number `places`: a slot below it has
/// a place in the table. Only `reserve` takes memory. No call makes `places` less.
#[derive(Drop)]
pub struct DueQueue<K: Ranked> {
    heap: Vec<(K, usize)>,
    places: Vec<usize>,
}

impl<K: Ranked> Model for DueQueue<K> {
    ghost use Rattle.std.specs.Prelude.{◌-◌, vec_len, vec_capacity};
    ghost use Rattle.qz_queue.specs.Queue.{QueueData, queue_code, IsIndexed};
    ghost use Rattle.qz_queue.specs.Order.{in_order};

    ghost Value = { QueueData K };

    ghost coded = { queue_code K.code };

    ghost view = { λ q. record {
      pairs = in_order K.stands_before q.heap.items;
      spare = vec_capacity q.heap - vec_len q.heap;
      places = vec_len q.places;
    } };

    ghost invariant = { λ q. IsIndexed K.stands_before q.heap.items q.places.items };
}

// Makes places for the slots below a number.
fn widen(places: &mut Vec<usize>, slots: usize) -> Result<(), AllocError>
    ensures wide { OnOk result (slots ≤ vec_len places.new) }
    ensures longer { vec_len places.old ≤ vec_len places.new }
    ensures same { (k : ℕ) → k < length places.old.items → slice_index places.new.items k ≡ slice_index places.old.items k }
    ensures succeeds { slots ≤ vec_len places.old → IsOk result }
{
    if slots <= places.len() {
        return Ok(());
    }
    places.resize(slots, 0)
}

impl<K: Ranked> DueQueue<K> {
    /// A queue of no slot.
    pub fn new(alloc: Global) -> DueQueue<K>
        ensures pairs { result.pairs ≡ [] }
    {
        DueQueue {
            heap: Vec::new(alloc),
            places: Vec::new(alloc),
        }
    }

    /// Takes the memory for `more` pairs beyond those that it has, and makes places for the slots below `slots`. Where
    /// memory runs out the pairs are as before, and the room is no less.
    pub fn reserve(&mut self, more: usize, slots: usize) -> Result<(), AllocError>
        ensures pairs { self.new.pairs ≡ self.old.pairs }
        ensures room { OnOk result (more ≤ self.new.spare) }
        ensures slots { OnOk result (slots ≤ self.new.places) }
        ensures spare { self.old.spare ≤ self.new.spare }
        ensures places { self.old.places ≤ self.new.places }
        ensures succeeds { more ≤ self.old.spare → slots ≤ self.old.places → IsOk result }
    {
        self.heap.reserve(more)?;
        widen(&mut self.places, slots)
    }

    /// The first pair, or `None` where the queue has none. Compares nothing, and takes no memory. Its contract also
    /// says that the pairs are in order, and that no slot has two.
    pub fn first(&self) -> Option<(&K, usize)>
        ensures first { option_map (λ p. (p.0.now, p.1)) result ≡ slice_get self.now.pairs 0 }
        ensures ascending { AreAscending K.stands_before self.now.pairs }
        ensures slots { AreSlotsApart self.now.pairs }
    {
        match self.heap.first() {
            Some(pair) => Some((&pair.0, pair.1)),
            None => None,
        }
    }

    /// The first pair of a wanted slot whose key stands after the given one, if one is given; `None` where there is none.
    /// The key needs not be in the queue. It looks at the pairs that it passes over, which aren't wanted or don't stand
    /// after the key, and at two for each of them, however many pairs there are. Takes no memory.
    pub fn first_of<C: Compare<K>, W: Choice>(
        &self,
        due: Option<&K>,
        choice: &W,
        compare: &mut C,
    ) -> Option<(&K, usize)>
        requires known { AreKnown (C.Knows compare.old) self.now.pairs }
        requires due { IfSome (option_copied due) (C.Knows compare.old) }
        ensures first { option_map (λ p. (p.0.now, p.1)) result ≡ slice_get (filter (is_wanted K.stands_before (W.wants choice.now) (option_copied due.entry)) self.now.pairs) 0 }
        ensures knows { KeepsKnown (C.Knows compare.old) (C.Knows compare.new) }
    {
        match first_wanted(&self.heap, 0, due, choice, None, compare) {
            Some(place) => {
                let pair = &self.heap[place];
                Some((&pair.0, pair.1))
            }
            None => None,
        }
    }

    /// Does nothing. Its contract says that the pairs are in order, and that no slot has two.
    pub fn laws(&self)
        ensures ascending { AreAscending K.stands_before self.now.pairs }
        ensures slots { AreSlotsApart self.now.pairs }
    {
        let _ = &self.heap;
    }

    /// Whether a slot can be put in: it has a place, and there is room. Takes no memory.
    pub fn can_take(&self, slot: usize) -> bool
        ensures able { result ≡ true → (slot < self.now.places) × (0 < self.now.spare) }
        ensures unable { result ≡ false → slot < self.now.places → 0 < self.now.spare → ⊥ }
    {
        slot < self.places.len() && self.heap.len() < self.heap.capacity()
    }

    /// Puts a slot in, with its key. The slot has a place and isn't in the queue, the key is no other slot's, and there
    /// is room. Takes no memory.
    pub fn insert<C: Compare<K>>(&mut self, slot: usize, due: K, compare: &mut C)
        requires place { slot < self.old.places }
        requires absent { key_of slot self.old.pairs ≡ None }
        requires free { IsKeyFree due slot self.old.pairs }
        requires room { 0 < self.old.spare }
        requires known { AreKnown (C.Knows compare.old) self.old.pairs }
        requires due { C.Knows compare.old due }
        ensures pairs { self.new.pairs ≡ put_pair K.stands_before (due, slot) self.old.pairs }
        ensures spare { self.old.spare ≤ self.new.spare + 1 }
        ensures places { self.new.places ≡ self.old.places }
        ensures calls { IsLogarithmic (length self.old.pairs) (C.count compare.old) (C.count compare.new) }
        ensures knows { KeepsKnown (C.Knows compare.old) (C.Knows compare.new) }
    {
        add(&mut self.heap, &mut self.places, slot, due, compare);
    }

    /// Takes a slot out, and answers its key; `None` where the slot isn't in the queue. Takes no memory.
    pub fn remove<C: Compare<K>>(&mut self, slot: usize, compare: &mut C) -> Option<K>
        requires known { AreKnown (C.Knows compare.old) self.old.pairs }
        ensures key { result ≡ key_of slot self.old.pairs }
        ensures pairs { self.new.pairs ≡ without_slot slot self.old.pairs }
        ensures gone { key_of slot self.new.pairs ≡ None }
        ensures spare { self.old.spare ≤ self.new.spare }
        ensures more { OnSome result (self.old.spare + 1 ≤ self.new.spare) }
        ensures places { self.new.places ≡ self.old.places }
        ensures calls { IsLogarithmic (length self.old.pairs) (C.count compare.old) (C.count compare.new) }
        ensures knows { KeepsKnown (C.Knows compare.old) (C.Knows compare.new) }
    {
        match find(&self.heap, &self.places, slot) {
            Some(at) => Some(take_out(&mut self.heap, &mut self.places, at, slot, compare)),
            None => None,
        }
    }

    /// Gives a slot of the queue a new key, which is no other slot's, and answers the old one. Takes no memory.
    pub fn change<C: Compare<K>>(&mut self, slot: usize, due: K, compare: &mut C) -> K
        requires present { IsSome (key_of slot self.old.pairs) }
        requires free { IsKeyFree due slot self.old.pairs }
        requires known { AreKnown (C.Knows compare.old) self.old.pairs }
        requires due { C.Knows compare.old due }
        ensures key { key_of slot self.old.pairs ≡ Some result }
        ensures pairs { self.new.pairs ≡ put_pair K.stands_before (due, slot) (without_slot slot self.old.pairs) }
        ensures now { key_of slot self.new.pairs ≡ Some due }
        ensures spare { self.old.spare ≤ self.new.spare }
        ensures places { self.new.places ≡ self.old.places }
        ensures calls { IsLogarithmic (length self.old.pairs) (C.count compare.old) (C.count compare.new) }
        ensures knows { KeepsKnown (C.Knows compare.old) (C.Knows compare.new) }
    {
        match find(&self.heap, &self.places, slot) {
            Some(at) => change_at(&mut self.heap, &mut self.places, at, slot, due, compare),
            None => unreachable!(),
        }
    }
}
