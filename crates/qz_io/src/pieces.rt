//! Whole pieces over a sink.
ghost use Rattle.std.specs.Prelude.{ℕ, ◌≤◌, length, take, OnOk, OnErr};
ghost use Rattle.std.specs.Io.KnownBytes.{Appends};
ghost use Rattle.qz_civil.specs.Causes.{HasCause};

use crate::Sink;
use qz_civil::Failed;

/// Writes all of a piece, in as many writes as the sink wants. After a failure the sink holds a front of the
/// piece, which may be none of it or all of it.
pub fn write_all<K: Sink>(sink: &mut K, piece: &[u8]) -> Result<(), Failed>
    ensures ok { OnOk result (Appends (K.held sink.old) (K.held sink.new) piece.now) }
    ensures part { OnErr result ((n : ℕ) × (n ≤ length piece.now) × Appends (K.held sink.old) (K.held sink.new) (take n piece.now)) }
    ensures cause { HasCause (K.faults sink.old) (K.faults sink.new) result }
{
    let mut done = 0;
    while done < piece.len() {
        done += sink.write(&piece[done..])?;
    }
    Ok(())
}
