//! The parts of a store file.
ghost use Rattle.std.specs.Prelude.{◌≡◌, ◌↔◌, ◌++◌, ◌∷◌, [], ◌≤◌, ℕ, length, take, true, false, None, vec_capacity, IsTrue, IfSome, IfNone};
ghost use Rattle.qz_journal.specs.Layout.{is_version, IsHeader, new_header, IsFront, IsPayload, body_of, open_gate, other_kind};
ghost use Rattle.qz_journal.specs.Opening.{IsCut};

/// The kind of a store of triggers, as the header has it.
pub const TRIGGERS: u8 = b'T';

/// The kind of a store of states, as the header has it.
pub const STATES: u8 = b'S';

/// The length of the longest payload, in bytes.
pub const MAX_PAYLOAD: usize = 32768;

/// The most bytes that a store has, header included.
pub const MAX_BYTES: u64 = 1 << 29;

/// The most payloads that a store has.
pub const MAX_PAYLOADS: u64 = 1 << 23;

pub(crate) const HEADER_LENGTH: usize = 16;

// The part of the header that is the same in all versions, but for the version itself: letters, version and kind.
pub(crate) const FRONT_LENGTH: usize = 6;

// What a payload takes beside its bytes: a gate and four bytes of length.
pub const FRAME_LENGTH: usize = 5;

// The length of the longest commit: the length of a payload, the payload and a gate.
pub(crate) const MAX_COMMIT: usize = MAX_PAYLOAD + FRAME_LENGTH;

// The length of the longest block: a gate, the length of a payload and the payload.
pub(crate) const MAX_BLOCK: usize = FRAME_LENGTH + MAX_PAYLOAD;

// How many bytes of a store an opening looks at in one piece: more than the longest block has.
pub(crate) const WINDOW: usize = 1 << 16;

pub(crate) const OPEN_GATE: u8 = 0xa5;

pub(crate) const CLOSED_GATE: u8 = 0;

// The first byte of the head of a snapshot.
pub(crate) const HEAD: u8 = 0xf0;

// The length of a head up to the end of the number of payloads before it.
pub(crate) const HEAD_LENGTH: usize = 5;

/// The version of the format that `create` writes. Versions 1 and 2 are read.
pub(crate) const VERSION: u8 = 2;

fn is_version(version: u8) -> bool
    ensures { result ≡ is_version version }
{
    version == 1 || version == 2
}

// The bytes of a store without payloads: its header, with both slots closed, and a closed gate.
pub(crate) fn empty_store(version: u8, kind: u8) -> [u8; 17]
    requires { IsTrue (is_version version) }
    ensures bytes { result ≡ new_header version kind ++ 0 ∷ [] }
    ensures header { IsHeader version kind (take 16 result) }
{
    [
        b'Q', b'Z', b'2', b'3', version, kind, 0, 0, 0, 0, 0, 0, 0, 0, 0, 0, 0,
    ]
}

// The version, where these first 16 bytes are the header of a store of this kind.
pub(crate) fn version_of(kind: u8, front: &[u8; HEADER_LENGTH]) -> Option<u8>
    ensures some { IfSome result (λ version. IsHeader version kind front.now) }
    ensures none { result ≡ None → (version : ℕ) → IsHeader version kind front.now → ⊥ }
{
    let version = front[4];
    if !is_version(version) {
        return None;
    }
    let (first, _) = front.split_at(FRONT_LENGTH);
    let wanted = [b'Q', b'Z', b'2', b'3', version, kind];
    if first != wanted.as_slice() {
        return None;
    }
    Some(version)
}

// Whether these first bytes are those of a store of this kind, of any version.
pub(crate) fn is_store(kind: u8, front: &[u8; FRONT_LENGTH]) -> bool
    ensures yes { result ≡ true → IsFront kind front.now }
    ensures no { result ≡ false → IsFront kind front.now → ⊥ }
{
    let wanted = [b'Q', b'Z', b'2', b'3', front[4], kind];
    *front == wanted
}

pub(crate) fn other_kind(kind: u8) -> u8
    ensures { result ≡ other_kind kind }
{
    if kind == TRIGGERS { STATES } else { TRIGGERS }
}

pub(crate) fn is_open(gate: u8) -> bool
    ensures { IsTrue result ↔ (gate ≡ open_gate) }
{
    gate == OPEN_GATE
}

// The payload after an open gate, and what follows it.
pub(crate) fn split_block(bytes: &[u8]) -> Option<(&[u8], &[u8])>
    ensures some { IfSome result (λ p. IsPayload p.0.now × (bytes.now ≡ body_of p.0.now ++ p.1.now)) }
    ensures none { IfNone result (IsCut bytes.now) }
{
    if bytes.len() < 4 {
        return None;
    }
    let (head, rest) = bytes.split_at(4);
    let length = u32::from_be_bytes([head[0], head[1], head[2], head[3]]) as usize;
    if length < 1 || length > MAX_PAYLOAD || rest.len() < length {
        return None;
    }
    Some(rest.split_at(length))
}
