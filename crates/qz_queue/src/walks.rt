//! Looking for the first pair after a key whose slot is wanted.
ghost use Rattle.std.specs.Prelude.{◌≡◌, ◌<◌, ◌⊎◌, length, ℕ, Bool, Some, IfSome, IsSomeAnd, slice_index_or, option_copied};
ghost use Rattle.qz_queue.specs.Heap.{IsHeap, IsOver};
ghost use Rattle.qz_queue.specs.Order.{AreKnown, KeepsKnown};
ghost use Rattle.qz_queue.specs.Walk.{IsUnder, IsPassing, is_after, is_wanted};

use crate::order::{Compare, Ranked};
use crate::sifts::compare_at;

/// Says which slots are wanted. Takes no memory.
pub trait Choice {
    ghost wants: { Self → ℕ → Bool };

    fn is_wanted(&self, slot: usize) -> bool
        ensures { result ≡ wants self.now slot };
}

// Whether the pair at a place stands after the key, if one is given.
fn is_after<K: Ranked, C: Compare<K>>(
    heap: &[(K, usize)],
    place: usize,
    due: Option<&K>,
    compare: &mut C,
) -> bool
    requires within { place < length heap.now }
    requires known { AreKnown (C.Knows compare.old) heap.now }
    requires due { IfSome (option_copied due) (C.Knows compare.old) }
    ensures answer { (d : K × ℕ) → is_after K.stands_before (option_copied due.entry) (slice_index_or heap.now place d).0 ≡ result }
    ensures knows { KeepsKnown (C.Knows compare.old) (C.Knows compare.new) }
{
    match due {
        Some(due) => compare.before(due, &heap[place].0),
        None => true,
    }
}

// Whether the pair at a place stands after the key, if one is given, and its slot is wanted.
fn is_wanted<K: Ranked, C: Compare<K>, W: Choice>(
    heap: &[(K, usize)],
    place: usize,
    due: Option<&K>,
    choice: &W,
    compare: &mut C,
) -> bool
    requires within { place < length heap.now }
    requires known { AreKnown (C.Knows compare.old) heap.now }
    requires due { IfSome (option_copied due) (C.Knows compare.old) }
    ensures answer { (d : K × ℕ) → is_wanted K.stands_before (W.wants choice.now) (option_copied due.entry) (slice_index_or heap.now place d) ≡ result }
    ensures knows { KeepsKnown (C.Knows compare.old) (C.Knows compare.new) }
{
    is_after(heap, place, due, compare) && choice.is_wanted(heap[place].1)
}

// Of this place and the one that was found, if one was, that whose pair stands first.
fn earlier<K: Ranked, C: Compare<K>>(
    heap: &[(K, usize)],
    place: usize,
    found: Option<usize>,
    compare: &mut C,
) -> usize
    requires within { place < length heap.now }
    requires found { IfSome found (λ other. other < length heap.now) }
    requires known { AreKnown (C.Knows compare.old) heap.now }
    ensures one { (result ≡ place) ⊎ (found ≡ Some result) }
    ensures over { IsOver K.stands_before heap.now result place }
    ensures over_found { IfSome found (IsOver K.stands_before heap.now result) }
    ensures knows { KeepsKnown (C.Knows compare.old) (C.Knows compare.new) }
{
    match found {
        Some(other) => {
            if compare_at(heap, other, place, compare) {
                other
            } else {
                place
            }
        }
        None => place,
    }
}

// The place of the first wanted pair after the key, among those from this place down, and the one that was found. It
// looks at the pairs that it passes over, and at those right below them.
pub(crate) fn first_wanted<K: Ranked, C: Compare<K>, W: Choice>(
    heap: &[(K, usize)],
    top: usize,
    due: Option<&K>,
    choice: &W,
    found: Option<usize>,
    compare: &mut C,
) -> Option<usize>
    requires heap { IsHeap K.stands_before heap.now }
    requires found { IfSome found (IsPassing (is_wanted K.stands_before (W.wants choice.now) (option_copied due)) heap.now) }
    requires known { AreKnown (C.Knows compare.old) heap.now }
    requires due { IfSome (option_copied due) (C.Knows compare.old) }
    ensures passing { IfSome result (IsPassing (is_wanted K.stands_before (W.wants choice.now) (option_copied due.entry)) heap.now) }
    ensures over_found { IfSome found (λ other. IsSomeAnd result (λ place. IsOver K.stands_before heap.now place other)) }
    ensures over { (other : ℕ) → IsUnder top other → IsPassing (is_wanted K.stands_before (W.wants choice.now) (option_copied due.entry)) heap.now other → IsSomeAnd result (λ place. IsOver K.stands_before heap.now place other) }
    ensures knows { KeepsKnown (C.Knows compare.old) (C.Knows compare.new) }
{
    if top >= heap.len() {
        return found;
    }
    if is_wanted(heap, top, due, choice, compare) {
        return Some(earlier(heap, top, found, compare));
    }
    if top >= heap.len() / 2 {
        return found;
    }
    let left = first_wanted(heap, 2 * top + 1, due, choice, found, compare);
    first_wanted(heap, 2 * top + 2, due, choice, left, compare)
}
