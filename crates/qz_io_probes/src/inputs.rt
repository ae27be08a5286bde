//! Sources, lines and clocks.
ghost use Rattle.std.specs.Prelude.{◌≡◌, ◌<◌, ◌∷◌, [], length, Some, IfOk, OnErr};
ghost use Rattle.std.specs.Io.{ReadsAtMost};
ghost use Rattle.std.specs.Io.KnownBytes.{ReadConsumes};
ghost use Rattle.qz_civil.specs.Causes.{HasCause};
ghost use Rattle.qz_io.specs.Clocks.{Tells, reading_at};
ghost use Rattle.qz_io.specs.Reading.{Finds, FindsNone};

use qz_civil::Failed;
use qz_io::{Clock, Found, LineReader, ListClock, Source};

/// Reads from a source.
pub fn read<S: Source>(source: &mut S, into: &mut [u8]) -> Result<usize, Failed>
    requires { 0 < length into.old }
    ensures bound { ReadsAtMost result into.new }
    ensures bytes { ReadConsumes (S.left source.old) (S.left source.new) result into.new }
    ensures cause { HasCause (S.faults source.old) (S.faults source.new) result }
{
    source.read(into)
}

/// Looks for the next line of a source, as `LineReader::next` does.
pub fn next<S: Source>(reader: &mut LineReader, source: &mut S) -> Result<Found, Failed>
    ensures found { IfOk result (λ found. Finds found (S.left source.old) (S.left source.new) reader.old.pending reader.new) }
    ensures failed { OnErr result (FindsNone (S.left source.old) (S.left source.new) reader.old.pending reader.new) }
    ensures cause { HasCause (S.faults source.old) (S.faults source.new) result }
{
    reader.next(source)
}

/// The next reading of a clock over a list.
pub fn now(list: &mut ListClock) -> i64
    ensures tells { Tells (Some list.old.given) (Some list.new.given) (result ∷ []) }
    ensures exact { result ≡ reading_at list.old.readings (length list.old.given) }
    ensures list { list.new.readings ≡ list.old.readings }
{
    list.now()
}
