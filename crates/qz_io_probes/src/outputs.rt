//! Sinks.
ghost use Rattle.std.specs.Prelude.{ℕ, ◌<◌, ◌≤◌, length, take, IfOk, OnOk, OnErr};
ghost use Rattle.std.specs.Io.KnownBytes.{Appends, WriteAppends, Keeps};
ghost use Rattle.qz_civil.specs.Causes.{HasCause};
ghost use Rattle.qz_io.specs.Outside.{IsHandedOn};

use qz_civil::Failed;
use qz_io::Sink;

/// Writes to a sink.
pub fn write<K: Sink>(sink: &mut K, from: &[u8]) -> Result<usize, Failed>
    ensures bound { IfOk result (λ n. n ≤ length from.now) }
    ensures some { 0 < length from.now → IfOk result (λ n. 0 < n) }
    ensures bytes { WriteAppends (K.held sink.old) (K.held sink.new) result from.now }
    ensures cause { HasCause (K.faults sink.old) (K.faults sink.new) result }
{
    sink.write(from)
}

/// Flushes a sink.
pub fn flush<K: Sink>(sink: &mut K) -> Result<(), Failed>
    ensures bytes { Keeps (K.held sink.old) (K.held sink.new) }
    ensures handed { OnOk result (IsHandedOn (K.held sink.new) (K.handed sink.new)) }
    ensures cause { HasCause (K.faults sink.old) (K.faults sink.new) result }
{
    sink.flush()
}

/// Writes all of a piece, as `qz_io::write_all` does.
pub fn write_all<K: Sink>(sink: &mut K, piece: &[u8]) -> Result<(), Failed>
    ensures ok { OnOk result (Appends (K.held sink.old) (K.held sink.new) piece.now) }
    ensures part { OnErr result ((n : ℕ) × (n ≤ length piece.now) × Appends (K.held sink.old) (K.held sink.new) (take n piece.now)) }
    ensures cause { HasCause (K.faults sink.old) (K.faults sink.new) result }
{
    qz_io::write_all(sink, piece)
}
