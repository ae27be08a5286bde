//! Cutting rows into pieces.
ghost use Rattle.std.specs.Prelude.{◌≡◌, ◌+◌, ◌≤◌, ◌++◌, OnOk, IfOk, length, map};
ghost use Rattle.qz_pieces.specs.Pieces.{row_bytes, nothing, with_row, pieces_of};

use crate::kinds::{RowKind, kind_byte};
use std::alloc::{AllocError, Global};
use std::marker::Model;
use std::mem;

/// The most bytes that a piece has.
pub const PIECE_LIMIT: usize = 32768;

/// The byte that a piece begins with.
pub(crate) const PIECE: u8 = 0xf1;

/// Rows that are being cut into pieces.
#[derive(Drop)]
pub struct Pieces {
    whole: Vec<Vec<u8>>,
    piece: Vec<u8>,
}

impl Model for Pieces {
    ghost use Rattle.std.specs.Prelude.{map};
    ghost use Rattle.qz_pieces.specs.Pieces.{Cut};

    ghost Value = { Cut };

    ghost view = { λ a. record { whole = map (λ p. p.items) a.whole.items; piece = a.piece.items } };
}

// Puts a row after what is there.
fn put_row(out: &mut Vec<u8>, kind: RowKind, bytes: &[u8]) -> Result<(), AllocError>
    requires { length bytes.now + 4 ≤ PIECE_LIMIT }
    ensures { OnOk result (out.new.items ≡ out.old.items ++ row_bytes (record { kind = kind; bytes = bytes.now })) }
{
    out.push(kind_byte(kind))?;
    out.push((bytes.len() / 256) as u8)?;
    out.push((bytes.len() % 256) as u8)?;
    out.extend_from_slice(bytes)
}

impl Pieces {
    /// No rows.
    pub fn new(alloc: Global) -> Result<Self, AllocError>
        ensures { IfOk result (λ p. p ≡ nothing) }
    {
        let mut piece = Vec::new(alloc);
        piece.push(PIECE)?;
        Ok(Pieces {
            whole: Vec::new(alloc),
            piece,
        })
    }

    /// Puts in the record of a row, in a new piece where the one at hand would pass the limit.
    ///
    /// After want of memory the rows so far are lost.
    #[tactic(auto, unfolding(crate::specs::Pieces::with_row))]
    pub fn add(&mut self, alloc: Global, kind: RowKind, bytes: &[u8]) -> Result<(), AllocError>
        requires { length bytes.now + 4 ≤ PIECE_LIMIT }
        ensures { OnOk result (self.new ≡ with_row self.old (record { kind = kind; bytes = bytes.now })) }
    {
        if self.piece.len() + (3 + bytes.len()) <= PIECE_LIMIT {
            put_row(&mut self.piece, kind, bytes)
        } else {
            let mut next = Vec::new(alloc);
            next.push(PIECE)?;
            put_row(&mut next, kind, bytes)?;
            self.whole.push(mem::replace(&mut self.piece, next))?;
            Ok(())
        }
    }

    /// The pieces of all rows.
    #[tactic(auto, unfolding(crate::specs::Pieces::pieces_of))]
    pub fn into_pieces(self) -> Result<Vec<Vec<u8>>, AllocError>
        ensures { IfOk result (λ ps. map (λ p. p.items) ps.items ≡ pieces_of self) }
    {
        let Pieces { mut whole, piece } = self;
        if piece.len() > 1 {
            whole.push(piece)?;
        } else {
            drop(piece);
        }
        Ok(whole)
    }
}
