//! Payloads that begin with a snapshot.
ghost use Rattle.std.specs.Prelude.{◌≡◌, List, ℕ, IfOk, IfSome, IfNone, map};
ghost use Rattle.qz_pieces.specs.Pieces.{RowBytes};
ghost use Rattle.qz_snapshot.specs.Snapshots.{BeginsPieces};

use crate::heads::{Head, read_head};
use qz_pieces::{ReadError, RecordOfRow, read_pieces};
use qz_types::NoMemory;
use std::alloc::Global;

/// The head of the snapshot that these payloads begin with, and the records of its rows, or None where they begin with none.
pub(crate) fn read_snapshot(
    alloc: Global,
    payloads: &[&[u8]],
) -> Result<Option<(Head, Vec<RecordOfRow>)>, NoMemory>
    ensures found { IfOk result (λ o. IfSome o (λ x. (more : List (List ℕ)) × BeginsPieces (map (λ p. p.now) payloads.now) x.0 x.1.items more)) }
    ensures none { IfOk result (λ o. IfNone o ((head : Head) (rows : List RowBytes) (more : List (List ℕ)) → BeginsPieces (map (λ p. p.now) payloads.now) head rows more → ⊥)) }
{
    let Some((first, rest)) = payloads.split_first() else {
        return Ok(None);
    };
    let Some(head) = read_head(first) else {
        return Ok(None);
    };
    let count = head.pieces as usize;
    if rest.len() < count {
        return Ok(None);
    }
    let (pieces, _) = rest.split_at(count);
    match read_pieces(alloc, pieces) {
        Ok(rows) => Ok(Some((head, rows))),
        Err(ReadError::Damaged { place: _ }) => Ok(None),
        Err(ReadError::NoMemory) => Err(NoMemory),
    }
}
