//! The limit of a document.
ghost use Rattle.std.specs.Prelude.{◌≡◌};

/// The greatest number of bytes of a document.
pub const DOCUMENT_LIMIT: usize = 16777216;

/// A law: the limit is this number. Definitions cite it by name.
pub fn document_limit_is()
    ensures { DOCUMENT_LIMIT ≡ 16777216 }
{}
