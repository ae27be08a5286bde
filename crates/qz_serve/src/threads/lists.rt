//! The nodes' lists of jobs: a node takes its own out while it works, and puts it back.
ghost use Rattle.std.specs.Prelude.{◌≡◌, [], map, get_or, set};

use crate::threads::performing::{JobList, Meaning};
use std::alloc::Global;
use std::mem;

/// Takes a node's list out: an empty one takes its place. An absent list is empty. It takes no memory.
pub(super) fn take_list<L: JobList, M: Meaning<L>>(
    alloc: Global,
    lists: &mut Vec<L>,
    place: usize,
) -> L
    requires none { (list : _) → L.has_none list → M.meanings list ≡ [] }
    ensures list { M.meanings result ≡ get_or (map M.meanings lists.old.items) place [] }
    ensures rest { map M.meanings lists.new.items ≡ set (map M.meanings lists.old.items) place [] }
{
    match lists.get_mut(place) {
        Some(list) => mem::replace(list, L::empty(alloc)),
        None => L::empty(alloc),
    }
}

/// Puts a node's list back where it was. It takes no memory. An absent list is dropped.
pub(super) fn put_list<L: JobList, M: Meaning<L>>(lists: &mut Vec<L>, place: usize, list: L)
    ensures { map M.meanings lists.new.items ≡ set (map M.meanings lists.old.items) place (M.meanings list) }
{
    if let Some(slot) = lists.get_mut(place) {
        *slot = list;
    }
}
