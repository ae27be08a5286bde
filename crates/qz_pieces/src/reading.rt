//! Reading pieces.
ghost use Rattle.std.specs.Prelude.{◌≡◌, ◌+◌, ◌≤◌, ◌++◌, List, ℕ, IfOk, IfSome, IfNone, length};
ghost use Rattle.qz_pieces.specs.Pieces.{RowBytes, row_bytes, AreShort, IsShort, piece_of};

use crate::cutting::{PIECE, PIECE_LIMIT};
use crate::kinds::{RowKind, kind_of};
use std::alloc::{AllocError, Global};
use std::marker::Model;

/// The record of a row, as it was read.
#[derive(Drop)]
pub struct RecordOfRow {
    pub kind: RowKind,
    pub bytes: Vec<u8>,
}

impl Model for RecordOfRow {
    ghost use Rattle.qz_pieces.specs.Pieces.{RowBytes};

    ghost Value = { RowBytes };

    ghost view = { λ a. record { kind = a.kind; bytes = a.bytes.items } };
}

// The kind and the record of the first row, and what follows it.
fn first_row(bytes: &[u8]) -> Option<(RowKind, &[u8], &[u8])>
    ensures some { IfSome result (λ x. IsShort (record { kind = x.0; bytes = x.1.now }) × (bytes.now ≡ row_bytes (record { kind = x.0; bytes = x.1.now }) ++ x.2.now)) }
    ensures none { IfNone result ((r : RowBytes) (rest : List ℕ) → IsShort r → bytes.now ≡ row_bytes r ++ rest → ⊥) }
{
    if bytes.len() < 3 {
        return None;
    }
    let Some(kind) = kind_of(bytes[0]) else {
        return None;
    };
    let length = usize::from(bytes[1]) * 256 + usize::from(bytes[2]);
    let (_, rest) = bytes.split_at(3);
    if rest.len() < length || length + 4 > PIECE_LIMIT {
        return None;
    }
    let (found, rest) = rest.split_at(length);
    Some((kind, found, rest))
}

/// The records of a piece, or None where it isn't one.
pub fn read_piece(alloc: Global, piece: &[u8]) -> Result<Option<Vec<RecordOfRow>>, AllocError>
    ensures found { IfOk result (λ o. IfSome o (λ rows. AreShort rows.items × (piece.now ≡ piece_of rows.items))) }
    ensures none { IfOk result (λ o. IfNone o ((rows : List RowBytes) → AreShort rows → piece.now ≡ piece_of rows → ⊥)) }
{
    if piece.is_empty() || piece[0] != PIECE {
        return Ok(None);
    }
    let mut rows = Vec::new(alloc);
    let mut rest = &piece[1..];
    while !rest.is_empty() {
        let Some((kind, bytes, after)) = first_row(rest) else {
            return Ok(None);
        };
        rows.push(RecordOfRow {
            kind,
            bytes: Vec::from_slice(alloc, bytes)?,
        })?;
        rest = after;
    }
    Ok(Some(rows))
}
