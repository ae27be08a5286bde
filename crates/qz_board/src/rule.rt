//! The rule that holds of a board between any two steps, and what each step shows who makes it. No value of these types is
//! made. What the writer and the readers know is a sheet that they saw, in proofs alone.

use crate::page::Sheet;
use crate::shown::Subject;
use atomic_table::{Join, Split};
use crossbeam_utils::rule::{Outcome, Protocol};
use left_right::Absorb;
use std::alloc::AllocError;
use std::marker::PhantomData;

/// A sheet takes the place of the one before. It takes no memory.
impl<E, G> Absorb<Sheet<E, G>> for Sheet<E, G> {
    type State = Sheet<E, G>;

    ghost state = { λ sheet. sheet };

    ghost applied = { λ sheet further. further };

    ghost never_fails = { Unit {0} };

    fn absorb_first(
        &mut self,
        operation: &Sheet<E, G>,
        _other: &Sheet<E, G>,
    ) -> Result<(), AllocError> {
        *self = operation.again();
        Ok(())
    }
}

/// The rule (`Keeps`).
pub struct OneBoard<K> {
    marker: PhantomData<K>,
}

impl<K: Subject> Protocol<Sheet<K::Entry, K::Ground>, Option<Sheet<K::Entry, K::Ground>>>
    for OneBoard<K> {
    ghost use Rattle.std.specs.Prelude.{None};
    ghost use Rattle.qz_board.specs.Pages.{Keeps};

    ghost holds = { λ sheet views. Keeps K.glance_of sheet views };

    ghost first = { None };
}

/// Sees the sheet that is shown then (`Looks`).
pub struct Sees<K> {
    marker: PhantomData<K>,
}

impl<K: Subject> Outcome<Sheet<K::Entry, K::Ground>, Option<Sheet<K::Entry, K::Ground>>>
    for Sees<K> {
    ghost use Rattle.qz_board.specs.Pages.{Looks};

    ghost then = { λ v x y w. Looks K.glance_of v x y w };
}

/// What the writer knows is told, and kept.
pub struct Tells;

impl<V> Split<V> for Tells {
    ghost left = { λ v. v };

    ghost right = { λ v. v };
}

/// A reader that knew nothing knows what it was told.
pub struct Begins;

impl<V> Join<Option<V>> for Begins {
    ghost use Rattle.std.specs.Prelude.{None};

    ghost both = { λ v w. w };

    ghost spent = { None };
}
