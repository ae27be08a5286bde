//! A list whose free room is known, so that an item can be put last where memory is no longer wanted.
ghost use Rattle.std.specs.Prelude.{◌≡◌, ◌+◌, ◌∷◌, ◌++◌, ◌<◌, ◌≤◌, [], OnOk, OnErr, IsOk};

use std::alloc::{AllocError, Global};
use std::marker::Model;

/// A list that contracts see as its items and how many more it takes without memory. (A `List` is seen as its items
/// alone, so no contract can speak of its room.)
#[derive(Drop)]
pub struct ListWithRoom<T> {
    items: Vec<T>,
}

impl<T> Model for ListWithRoom<T> {
    ghost use Rattle.std.specs.Prelude.{◌-◌, vec_len, vec_capacity};
    ghost use Rattle.qz_civil.specs.Lists.{WithRoom};

    ghost Value = { WithRoom T };

    ghost view = { λ a. record { items = a.items.items; room = vec_capacity a.items - vec_len a.items } };
}

impl<T> ListWithRoom<T> {
    /// The empty list.
    pub fn new(alloc: Global) -> Self
        ensures { result.items ≡ [] }
    {
        ListWithRoom {
            items: Vec::new(alloc),
        }
    }

    /// The items, in order.
    pub fn as_slice(&self) -> &[T]
        ensures { result.now ≡ self.now.items }
    {
        &self.items
    }

    /// Makes room for so many more items. It takes no memory where the list has that room already.
    pub fn reserve(&mut self, additional: usize) -> Result<(), AllocError>
        ensures items { self.new.items ≡ self.old.items }
        ensures room { self.old.room ≤ self.new.room }
        ensures ok { OnOk result (additional ≤ self.new.room) }
        ensures succeeds { additional ≤ self.old.room → IsOk result }
        ensures err { OnErr result (self.new ≡ self.old) }
    {
        self.items.reserve(additional)
    }

    /// Puts an item last, in the room that is left.
    pub fn push_reserved(&mut self, item: T)
        requires { 0 < self.old.room }
        ensures items { self.new.items ≡ self.old.items ++ item ∷ [] }
        ensures room { self.new.room + 1 ≡ self.old.room }
    {
        self.items.push_reserved(item);
    }
}
