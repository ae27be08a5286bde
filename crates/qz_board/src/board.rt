//! The board, its writer, its readers and its notes.
ghost use Rattle.std.specs.Prelude.{◌≡◌, [], true, drop, IsSome, IfSome};
ghost use Rattle.std.proofs.Props.{props};
ghost use Rattle.left_right.specs.Sides.{view};
ghost use Rattle.qz_board.specs.Posts.{first_count, basis_of, entries_of, Shows};

mod looking;
mod steps;
mod writing;

use crate::page::{Page, Sheet};
use crate::posts::Count;
use crate::rule::OneBoard;
use crate::shown::Subject;
use left_right::Absorb;
use left_right::reader::Reader;
use left_right::writer::Writer;

// What lies on a board about `K`.
type SheetOf<K> = Sheet<<K as Subject>::Entry, <K as Subject>::Ground>;

type Publisher<K> = Writer<SheetOf<K>, SheetOf<K>, Option<SheetOf<K>>, OneBoard<K>>;

type Looker<K> = Reader<SheetOf<K>, Option<SheetOf<K>>, OneBoard<K>>;

/// Makes boards.
pub struct Board;

/// Posts what readers see. It can't be dropped: `close` ends it. Contracts see the history that it `posted`, the history
/// that was `offered` last, and the basis of both.
pub struct BoardWriter<K: Subject>
where
    Sheet<K::Entry, K::Ground>: Absorb<Sheet<K::Entry, K::Ground>>,
{
    writer: Publisher<K>,
    // What was offered last, whether or not it was posted.
    last: Page<K>,
    count: Count<K>,
    // How many entries there were with the first post.
    first: u64,
    // Nothing waits to be published between two calls.
    ghost idle: { drop writer.behind writer.log.items ≡ [] },
    ghost one_book: { writer.desk.shown.value.front.book ≡ last.sheet.front.book },
    ghost begun: { IsSome (basis_of writer.desk.shown.value.front.log) },
    ghost shows: { Shows K.glance_of (basis_of writer.desk.shown.value.front.log) (entries_of writer.desk.shown.value.front.log) writer.desk.shown.value.glance } by { Prim.hlevel props },
    ghost counts: { (count.tracked ≡ true) × (count.key ≡ 0) × (count.book ≡ last.sheet.front.book) },
    ghost begins: { first ≡ first_count K.before last.sheet.front.log },
}

/// Looks at a board. Contracts see the history that it has `seen`, and the basis of that.
#[derive(Drop)]
pub struct BoardReader<K: Subject> {
    reader: Looker<K>,
    // What the reader saw last, or was told.
    last: Page<K>,
    // The reader has seen a sheet of the board that its last page is of.
    ghost knows: { IsSome (view reader.place) },
    ghost one_book: { IfSome (view reader.place) (λ sheet. sheet.front.book ≡ last.sheet.front.book) } by { Prim.hlevel props },
}

/// What a writer had posted, for a reader to learn. It may be sent to another thread.
#[derive(Drop)]
pub struct Posted<K: Subject> {
    page: Page<K>,
}

// Can be named only for what may be sent to a thread.
fn needs_send<T: Send>() {}

/// A law, and no work: the writer of a board, its readers and its notes may be sent to threads, whatever it shows.
pub fn crosses_threads<K: Subject>() {
    needs_send::<BoardWriter<K>>();
    needs_send::<BoardReader<K>>();
    needs_send::<Posted<K>>();
}
