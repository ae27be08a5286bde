//! How a part of a snapshot is told from a record of an entry.
ghost use Rattle.std.specs.Prelude.{◌≡◌};
ghost use Rattle.qz_snapshot.specs.Opening.{is_part, is_piece};

/// The bytes that a head and a piece begin with.
const HEAD: u8 = 0xf0;

const PIECE: u8 = 0xf1;

/// Whether the payload is a part of a snapshot.
pub fn is_part(payload: &[u8]) -> bool
    ensures { result ≡ is_part payload.now }
{
    if payload.is_empty() {
        return false;
    }
    HEAD <= payload[0] && payload[0] <= PIECE
}

/// Whether the payload is a piece, or begins as one.
pub(crate) fn is_piece(payload: &[u8]) -> bool
    ensures { result ≡ is_piece payload.now }
{
    !payload.is_empty() && payload[0] == PIECE
}
