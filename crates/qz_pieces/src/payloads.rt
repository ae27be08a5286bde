//! Reading all pieces of a snapshot.
ghost use Rattle.std.specs.Prelude.{◌≡◌, ◌≤◌, ◌↔◌, List, ℕ, IfOk, IfErr, IfSome, IfNone, IsTrue, map};
ghost use Rattle.qz_pieces.specs.Pieces.{RowBytes, BeginsAfter};
ghost use Rattle.qz_pieces.specs.Payloads.{ArePiecesOf, IsFirstBad, IfDamaged, MayFollow, kind_after, last_kind};

use crate::cutting::PIECE_LIMIT;
use crate::kinds::kind_byte;
use crate::reading::{RecordOfRow, read_piece};
use std::alloc::{AllocError, Global};
use thiserror::Error;

/// Why payloads weren't read as pieces.
#[derive(Clone, Copy, PartialEq, Eq, Debug, Error)]
pub enum ReadError {
    /// The payload at this place, from 0, the least such, isn't the next piece of any rows: it is no piece or has no row,
    /// it is too long, the piece before it had room for its first row, or a row's kind is before that of an earlier row.
    #[error("no snapshot: the piece at place {place} is wrong")]
    Damaged { place: usize },
    /// Memory ran out. Nothing is known of the payloads.
    #[error("no memory")]
    NoMemory,
}

impl From<AllocError> for ReadError {
    ghost use Rattle.qz_pieces.specs.declared.payloads.ReadError.TheVariants as read;

    ghost from_gives = { λ _ e. e ≡ read.NoMemory };

    fn from(_error: AllocError) -> ReadError {
        ReadError::NoMemory
    }
}

// Whether a piece of so many bytes has no room for the first of these rows.
fn begins_after(before: usize, rows: &[RecordOfRow]) -> bool
    requires { before ≤ PIECE_LIMIT }
    ensures { IsTrue result ↔ BeginsAfter before rows.now }
{
    let Some((first, _)) = rows.split_first() else {
        return false;
    };
    PIECE_LIMIT - before < 3 + first.bytes.len()
}

// The kind of the last row, or None where a row's kind is before that of the one before it.
fn last_kind(least: u8, rows: &[RecordOfRow]) -> Option<u8>
    ensures { result ≡ last_kind least rows.now }
{
    let mut last = least;
    for row in rows {
        let kind = kind_byte(row.kind);
        if kind < last {
            return None;
        }
        last = kind;
    }
    Some(last)
}

// The rows of a piece and the kind of its last one, or None where it can't stand after one of so many bytes whose last row
// is of the kind `least`.
fn next_piece(
    alloc: Global,
    before: usize,
    least: u8,
    piece: &[u8],
) -> Result<Option<(Vec<RecordOfRow>, u8)>, AllocError>
    requires { before ≤ PIECE_LIMIT }
    ensures found { IfOk result (λ o. IfSome o (λ x. MayFollow before least piece.now x.0.items × (x.1 ≡ kind_after least x.0.items))) }
    ensures none { IfOk result (λ o. IfNone o ((rows : List RowBytes) → MayFollow before least piece.now rows → ⊥)) }
{
    if piece.len() > PIECE_LIMIT {
        return Ok(None);
    }
    let Some(rows) = read_piece(alloc, piece)? else {
        return Ok(None);
    };
    if !begins_after(before, &rows) {
        return Ok(None);
    }
    let Some(last) = last_kind(least, &rows) else {
        return Ok(None);
    };
    Ok(Some((rows, last)))
}

/// The records of all rows of these pieces, with their kinds, in their order.
///
/// Payloads are read exactly where they are the pieces of some rows in the order of their kinds, and there is one list of
/// such rows at most.
pub fn read_pieces(alloc: Global, payloads: &[&[u8]]) -> Result<Vec<RecordOfRow>, ReadError>
    ensures rows { IfOk result (λ rows. ArePiecesOf (map (λ p. p.now) payloads.now) rows.items) }
    ensures damaged { IfErr result (λ e. IfDamaged e (λ place. IsFirstBad (map (λ p. p.now) payloads.now) place)) }
    ensures refused { IfErr result (λ e. IfDamaged e (λ _. (rows : List RowBytes) → ArePiecesOf (map (λ p. p.now) payloads.now) rows → ⊥)) }
{
    let mut rows = Vec::new(alloc);
    let mut before = PIECE_LIMIT;
    let mut kind = 0;
    for place in 0..payloads.len() {
        let piece = payloads[place];
        let Some((mut more, last)) = next_piece(alloc, before, kind, piece)? else {
            return Err(ReadError::Damaged { place });
        };
        rows.append(&mut more)?;
        before = piece.len();
        kind = last;
    }
    Ok(rows)
}
