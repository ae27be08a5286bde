//! The rule that holds of a lock between any two atomic steps, and what each step shows the seat that makes it. No
//! value of these types is made.

use crate::logged::Logged;
use crate::view::View;
use atomic_table::{Join, Play, Split, TableRule};
use std::marker::PhantomData;
use std::snapshot::Snapshot;

/// The rule (`IsKept`), and the first seat's view.
pub struct Rule<V> {
    marker: PhantomData<V>,
}

impl<V: Logged> TableRule<Option<V>, View<V::Entry, V::Ground>, Snapshot<V>> for Rule<V> {
    ghost use Rattle.qz_row_lock.specs.Views.{first_view};
    ghost use Rattle.qz_row_lock.specs.Rows.{IsKept};

    ghost holds = { λ key s. IsKept V.number V.history V.is_shut V.basis (V.history key.value) (V.basis key.value) s };

    ghost first = { λ key. first_view (V.history key.value) (V.basis key.value) (V.is_shut key.value) };
}

/// A seat draws a ticket.
pub struct Draw<V> {
    marker: PhantomData<V>,
}

impl<V: Logged> Play<Option<V>, View<V::Entry, V::Ground>> for Draw<V> {
    ghost use Rattle.qz_row_lock.specs.Rows.{Draws};

    ghost then = { λ st m n w. Draws V.number V.history V.is_shut V.basis m n w };
}

/// A seat looks whether its ticket is served.
pub struct Look<V> {
    marker: PhantomData<V>,
}

impl<V: Logged> Play<Option<V>, View<V::Entry, V::Ground>> for Look<V> {
    ghost use Rattle.qz_row_lock.specs.Rows.{Looks};

    ghost then = { λ st m n w. Looks V.number V.history V.is_shut V.basis m n w };
}

/// A seat that has the turn writes the mark of the new history.
pub struct Write<V> {
    marker: PhantomData<V>,
}

impl<V: Logged> Play<Option<V>, View<V::Entry, V::Ground>> for Write<V> {
    ghost use Rattle.qz_row_lock.specs.Rows.{Writes};

    ghost then = { λ st m n w. Writes V.number V.history V.is_shut V.basis m w };
}

/// A seat ends its turn.
pub struct Leave<V> {
    marker: PhantomData<V>,
}

impl<V: Logged> Play<Option<V>, View<V::Entry, V::Ground>> for Leave<V> {
    ghost use Rattle.qz_row_lock.specs.Rows.{Leaves};

    ghost then = { λ st m n w. Leaves V.number V.history V.is_shut V.basis m w };
}

/// A seat looks at the mark, and so learns the history so far.
pub struct See<V> {
    marker: PhantomData<V>,
}

impl<V: Logged> Play<Option<V>, View<V::Entry, V::Ground>> for See<V> {
    ghost use Rattle.qz_row_lock.specs.Rows.{Sees};

    ghost then = { λ st m n w. Sees V.number V.history V.is_shut V.basis m w };
}

/// A seat is split in two, each with half of the numbers.
pub struct Halves;

impl<E, G> Split<View<E, G>> for Halves {
    ghost use Rattle.qz_row_lock.specs.Views.{first_half, second_half};

    ghost left = { first_half };

    ghost right = { second_half };
}

/// A note is split off, which has no number and no share.
pub struct Notes;

impl<E, G> Split<View<E, G>> for Notes {
    ghost use Rattle.qz_row_lock.specs.Views.{note_of};

    ghost left = { λ v. v };

    ghost right = { note_of };
}

/// One seat is joined into another.
pub struct Joined;

impl<E, G> Join<View<E, G>> for Joined {
    ghost use Rattle.qz_row_lock.specs.Views.{after_join, spent};

    ghost both = { after_join };

    ghost spent = { spent };
}
