//! What stands on a board.
ghost use Rattle.std.specs.Prelude.{◌≡◌, [], ◌∷◌, true, Some, IsSome};
ghost use Rattle.std.proofs.Props.{props};
ghost use Rattle.qz_board.specs.Posts.{post, basis_of, entries_of, Shows};

use crate::glance::Glance;
use crate::posts::{Count, Front, Grow, Growth, Post};
use crate::shown::{Shown, Subject};
use logbook::{Seen, Start, Word};

/// A glance, and the posts that it is of, as they lie on the board.
#[derive(Drop)]
pub struct Sheet<E, G> {
    pub glance: Glance,
    pub front: Seen<Post<E, G>, u64, Growth>,
}

impl<E, G> Sheet<E, G> {
    /// A copy.
    pub fn again(&self) -> Sheet<E, G>
        ensures { result ≡ self.now }
    {
        Sheet {
            glance: self.glance,
            front: self.front.again(),
        }
    }
}

/// A sheet whose glance is that of its posts.
#[derive(Drop)]
pub struct Page<K: Subject> {
    pub sheet: Sheet<K::Entry, K::Ground>,
    ghost begun: { IsSome (basis_of sheet.front.log) },
    ghost shows: { Shows K.glance_of (basis_of sheet.front.log) (entries_of sheet.front.log) sheet.glance } by { Prim.hlevel props },
}

impl<K: Subject> Page<K> {
    /// The first page of a board, and the word of its posts.
    pub fn first<S: Shown<K>>(from: &S) -> (Count<K>, Page<K>)
        ensures posts { result.1.sheet.front.log ≡ post (S.basis from.now) (S.history from.now) ∷ [] }
        ensures word { (result.0.tracked ≡ true) × (result.0.key ≡ 0) × (result.0.book ≡ result.1.sheet.front.book) }
        ensures glance { result.1.sheet.glance ≡ K.glance_of (S.basis from.now) (S.history from.now) }
    {
        let (front, mut pens) = Seen::open_row::<S, Grow<K>>(from, Start::alone(), 1);
        let mut pen = pens.take();
        let count = Word::tracked(0, &mut pen);
        let glance = from.glance();
        (
            count,
            Page {
                sheet: Sheet { glance, front },
            },
        )
    }

    /// The page of a value whose history was posted.
    pub fn of<S: Shown<K>>(from: &S, front: Front<K>) -> Page<K>
        requires basis { basis_of front.log ≡ Some (S.basis from.now) }
        requires entries { entries_of front.log ≡ S.history from.now }
        ensures front { result.sheet.front ≡ front }
        ensures glance { result.sheet.glance ≡ K.glance_of (S.basis from.now) (S.history from.now) }
    {
        let glance = from.glance();
        Page {
            sheet: Sheet { glance, front },
        }
    }

    /// A page of a sheet that shows what it says.
    pub fn over(sheet: Sheet<K::Entry, K::Ground>) -> Page<K>
        requires begun { IsSome (basis_of sheet.front.log) }
        requires shows { Shows K.glance_of (basis_of sheet.front.log) (entries_of sheet.front.log) sheet.glance }
        ensures { result.sheet ≡ sheet }
    {
        Page { sheet }
    }
}
