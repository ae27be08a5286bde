//! Calls of a due queue.
ghost use Rattle.std.specs.Prelude.{◌≡◌, ◌+◌, ◌<◌, ◌≤◌, length, None, OnSome, option_map, option_copied, slice_get, filter, IfSome};
ghost use Rattle.qz_queue.specs.Order.{AreKnown, KeepsKnown, IsLogarithmic, IsKeyFree, put_pair, key_of, without_slot, AreAscending, AreSlotsApart};
ghost use Rattle.qz_queue.specs.Walk.{is_wanted};

use qz_queue::{Choice, Compare, DueQueue, Ranked};

/// [`DueQueue::first`].
pub fn first<K: Ranked>(queue: &DueQueue<K>) -> Option<(&K, usize)>
    ensures first { option_map (λ p. (p.0.now, p.1)) result ≡ slice_get queue.now.pairs 0 }
    ensures ascending { AreAscending K.stands_before queue.now.pairs }
    ensures slots { AreSlotsApart queue.now.pairs }
{
    queue.first()
}

/// [`DueQueue::insert`].
pub fn insert<K: Ranked, C: Compare<K>>(
    queue: &mut DueQueue<K>,
    slot: usize,
    due: K,
    compare: &mut C,
)
    requires place { slot < queue.old.places }
    requires absent { key_of slot queue.old.pairs ≡ None }
    requires free { IsKeyFree due slot queue.old.pairs }
    requires room { 0 < queue.old.spare }
    requires known { AreKnown (C.Knows compare.old) queue.old.pairs }
    requires due { C.Knows compare.old due }
    ensures pairs { queue.new.pairs ≡ put_pair K.stands_before (due, slot) queue.old.pairs }
    ensures spare { queue.old.spare ≤ queue.new.spare + 1 }
    ensures places { queue.new.places ≡ queue.old.places }
    ensures calls { IsLogarithmic (length queue.old.pairs) (C.count compare.old) (C.count compare.new) }
    ensures knows { KeepsKnown (C.Knows compare.old) (C.Knows compare.new) }
{
    queue.insert(slot, due, compare);
}

/// [`DueQueue::remove`].
pub fn remove<K: Ranked, C: Compare<K>>(
    queue: &mut DueQueue<K>,
    slot: usize,
    compare: &mut C,
) -> Option<K>
    requires { AreKnown (C.Knows compare.old) queue.old.pairs }
    ensures key { result ≡ key_of slot queue.old.pairs }
    ensures pairs { queue.new.pairs ≡ without_slot slot queue.old.pairs }
    ensures gone { key_of slot queue.new.pairs ≡ None }
    ensures spare { queue.old.spare ≤ queue.new.spare }
    ensures more { OnSome result (queue.old.spare + 1 ≤ queue.new.spare) }
    ensures places { queue.new.places ≡ queue.old.places }
    ensures calls { IsLogarithmic (length queue.old.pairs) (C.count compare.old) (C.count compare.new) }
    ensures knows { KeepsKnown (C.Knows compare.old) (C.Knows compare.new) }
{
    queue.remove(slot, compare)
}

/// [`DueQueue::first_of`].
pub fn first_wanted<'a, K: Ranked, C: Compare<K>, W: Choice>(
    queue: &'a DueQueue<K>,
    due: Option<&K>,
    choice: &W,
    compare: &mut C,
) -> Option<(&'a K, usize)>
    requires known { AreKnown (C.Knows compare.old) queue.now.pairs }
    requires due { IfSome (option_copied due) (C.Knows compare.old) }
    ensures first { option_map (λ p. (p.0.now, p.1)) result ≡ slice_get (filter (is_wanted K.stands_before (W.wants choice.now) (option_copied due.entry)) queue.now.pairs) 0 }
    ensures knows { KeepsKnown (C.Knows compare.old) (C.Knows compare.new) }
{
    queue.first_of(due, choice, compare)
}
