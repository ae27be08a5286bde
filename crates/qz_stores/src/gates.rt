//! Where the gates of a journal are. Both numbers are the journal's: its definitions say which they are.
ghost use Rattle.std.specs.Prelude.{◌≡◌, ◌+◌, ◌^◌, ◌<◌, [], length};
ghost use Rattle.qz_journal.specs.Commits.{need_of};
ghost use Rattle.qz_journal.specs.Layout.{end_of};

// What comes before the first gate.
const HEADER_LENGTH: u64 = 16;

// What a payload takes beside its bytes.
const FRAME_LENGTH: u64 = 5;

/// The offset, in bytes, of the first gate: that of a journal without payloads.
pub(crate) fn first_gate() -> u64
    ensures { result ≡ end_of [] }
{
    HEADER_LENGTH
}

/// The offset, in bytes, of the gate after a payload whose own gate is at this offset.
pub(crate) fn gate_after(gate: u64, payload: &[u8]) -> u64
    requires { gate + need_of (length payload.now) < 2 ^ 64 }
    ensures { result ≡ gate + need_of (length payload.now) }
{
    gate + FRAME_LENGTH + payload.len() as u64
}
