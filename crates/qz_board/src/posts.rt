//! What is known of all that a board has posted: a list of posts that only grows. It exists in proofs alone. The one word
//! of it lies with the writer, and says how many entries were posted after those of the first post.

use crate::shown::{Shown, Subject};
use logbook::{Gain, Opening, Plain, Play, Rule, Seen, Word};
use std::collections::LinkedList;
use std::marker::PhantomData;

/// Entries that were posted together. No value of it is made.
pub struct Post<E, G> {
    /// The basis of the value that was posted.
    pub basis: G,
    pub entries: LinkedList<E>,
}

/// A beginning of the list of posts. It takes no room.
pub type Front<K> = Seen<Post<<K as Subject>::Entry, <K as Subject>::Ground>, u64, Growth>;

/// The word that lies with the writer.
pub type Count<K> = Word<Post<<K as Subject>::Entry, <K as Subject>::Ground>, u64, Growth>;

/// The rule of the posts (`IsKept`). Clients of the list trade nothing.
pub struct Growth;

impl<E, G> Rule<Post<E, G>, u64> for Growth {
    ghost use Rattle.std.specs.Prelude.{[]};
    ghost use base.Fml.{ftrue};
    ghost use Rattle.qz_board.specs.Posts.{IsKept};

    ghost holds = { λ cells log. IsKept cells log };

    ghost first = { [] };

    ghost hinted = { λ n log. Unit {0} };

    ghost shows = { λ log. [] };

    ghost keeps = { λ names log. ftrue };

    ghost moves = { λ ask before after answer. Unit {0} };
}

/// What clients of the list gain: nothing.
pub struct Nothing;

impl<E, G> Gain<Post<E, G>, u64> for Nothing {
    ghost use base.Fml.{ftrue};

    ghost after = { λ names about answer. ftrue };
}

/// The step that adds what a value has further (`Grows`).
pub struct Grow<K> {
    marker: PhantomData<K>,
}

impl<K: Subject> Play<Post<K::Entry, K::Ground>, u64> for Grow<K> {
    ghost use Rattle.qz_board.specs.Posts.{Grows};

    ghost then = { Grows };
}

impl<K: Subject, S: Shown<K>> Plain<S, Post<K::Entry, K::Ground>, u64> for Grow<K> {
    ghost use Rattle.std.specs.Prelude.{None};
    ghost use Rattle.qz_board.specs.Posts.{post};

    ghost ask = { λ s. post (S.basis s) (S.history s) };

    ghost state = { λ s. None };
}

/// The first post has the whole history of the value that the board begins with.
impl<K: Subject, S: Shown<K>> Opening<S, Post<K::Entry, K::Ground>> for Grow<K> {
    ghost use Rattle.std.specs.Prelude.{[], ◌∷◌};
    ghost use Rattle.qz_board.specs.Posts.{post};

    ghost log = { λ count s. post (S.basis s) (S.history s) ∷ [] };
}
