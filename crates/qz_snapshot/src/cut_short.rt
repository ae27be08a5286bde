//! Payloads of a snapshot of which some are missing.
ghost use Rattle.std.specs.Prelude.{◌≡◌, ◌↔◌, ◌&&◌, nat_lt, length, IsTrue};
ghost use Rattle.std.specs.List.{list_all};
ghost use Rattle.qz_snapshot.specs.Opening.{is_piece, AreCutShort};

use crate::heads::{Head, read_head};
use crate::marks::is_piece;
use qz_civil::List;

fn are_pieces(payloads: &[List<u8>]) -> bool
    ensures { result ≡ list_all is_piece payloads.now }
{
    for payload in payloads {
        if !is_piece(payload.as_slice()) {
            return false;
        }
    }
    true
}

// Whether fewer pieces stand after the head than it says, and nothing else does.
fn goes_on(head: &Head, pieces: &[List<u8>]) -> bool
    ensures { result ≡ (nat_lt (length pieces.now) head.now.pieces && list_all is_piece pieces.now) }
{
    pieces.len() < head.pieces as usize && are_pieces(pieces)
}

/// Whether these payloads are the head of a snapshot and pieces, of which fewer are there than it says. Whether the pieces can be
/// read isn't looked at.
#[tactic(auto, using(crate::proofs::CutShort::none_without_head))]
pub fn are_cut_short(payloads: &[List<u8>]) -> bool
    ensures { IsTrue result ↔ AreCutShort payloads.now }
{
    let Some((first, pieces)) = payloads.split_first() else {
        return false;
    };
    match read_head(first.as_slice()) {
        Some(head) => goes_on(&head, pieces),
        None => false,
    }
}
