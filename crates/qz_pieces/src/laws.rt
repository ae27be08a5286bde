//! Laws of pieces.
ghost use Rattle.std.specs.Prelude.{◌≡◌, ◌++◌, List, map};
ghost use Rattle.qz_pieces.specs.Pieces.{RowBytes, flat, piece_of, pieces, joined, AreShort, AreWithin, IsGreedy, IsCutOf};

use crate::cutting::PIECE_LIMIT;

/// Bytes are those of one list of rows at most. The pieces of rows are those of groups that are these rows, one after the
/// other, each as long as it can be; and pieces of such groups are those of their rows. So what is written is read back, and
/// whether pieces were written so is seen of each piece and the first row of the next. It does nothing: it is the place of
/// that proof.
pub fn rows_are_read_in_one_way()
    ensures one { (rows others : List RowBytes) → flat rows ≡ flat others → rows ≡ others }
    ensures cut { (rows : List RowBytes) → AreShort rows → IsCutOf (pieces rows) rows }
    ensures greedy { (groups : List (List RowBytes)) → AreWithin groups → IsGreedy groups → pieces (joined groups) ≡ map piece_of groups }
    ensures appended { (rows others : List RowBytes) → flat (rows ++ others) ≡ flat rows ++ flat others }
{}

/// A piece has 32768 bytes at most. Stores that were made with another limit couldn't be read.
pub fn piece_limit_is()
    ensures { PIECE_LIMIT ≡ 32768 }
{}
