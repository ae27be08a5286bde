//! Sources, sinks and clocks.
ghost use Rattle.std.specs.Prelude.{◌≡◌, ℕ, ℤ, List, ◌∷◌, [], ◌<◌, ◌≤◌, length, IfOk, OnOk};
ghost use Rattle.std.specs.declared.option.Option.{Option};
ghost use Rattle.std.specs.Io.{ReadsAtMost};
ghost use Rattle.std.specs.Io.KnownBytes.{ReadConsumes, WriteAppends, Keeps};
ghost use Rattle.qz_civil.specs.Causes.{HasCause};
ghost use Rattle.qz_io.specs.Clocks.{Tells};
ghost use Rattle.qz_io.specs.Outside.{IsHandedOn};

use qz_civil::Failed;

/// Bytes that come in. Contracts know which bytes an object in memory has left, and nothing of a real one.
pub trait Source: Drop {
    /// The bytes that are left, where that is known.
    ghost left: { Self → Option (List ℕ) };

    /// How often it has failed.
    ghost faults: { Self → ℕ };

    /// Fills the front of `into` with the next bytes and answers how many. 0 is the end of the input, and only
    /// that. A failure takes no byte.
    fn read(&mut self, into: &mut [u8]) -> Result<usize, Failed>
        requires { 0 < length into.old }
        ensures bound { ReadsAtMost result into.new }
        ensures bytes { ReadConsumes (left self.old) (left self.new) result into.new }
        ensures cause { HasCause (faults self.old) (faults self.new) result };
}

/// Bytes that go out. Contracts know which bytes an object in memory holds and handed on, and nothing of a real one.
pub trait Sink: Drop {
    /// The bytes that it holds: all that it took, where that is known.
    ghost held: { Self → Option (List ℕ) };

    /// Those of them that it handed on, where that is known.
    ghost handed: { Self → Option (List ℕ) };

    /// How often it has failed.
    ghost faults: { Self → ℕ };

    /// Takes bytes from the front of `from` and answers how many: at least one, where there is one. A failure
    /// takes none. What was taken may stay in the sink until a `flush`.
    fn write(&mut self, from: &[u8]) -> Result<usize, Failed>
        ensures bound { IfOk result (λ n. n ≤ length from.now) }
        ensures some { 0 < length from.now → IfOk result (λ n. 0 < n) }
        ensures bytes { WriteAppends (held self.old) (held self.new) result from.now }
        ensures cause { HasCause (faults self.old) (faults self.new) result };

    /// Hands on all that the sink holds. After a failure any part of it may have been handed on.
    fn flush(&mut self) -> Result<(), Failed>
        ensures bytes { Keeps (held self.old) (held self.new) }
        ensures handed { OnOk result (IsHandedOn (held self.new) (handed self.new)) }
        ensures cause { HasCause (faults self.old) (faults self.new) result };
}

/// The time of day, in ms since 1970-01-01T00:00:00Z. Readings may fall, and may be any number.
pub trait Clock: Drop {
    /// The readings so far, where they are known.
    ghost readings: { Self → Option (List ℤ) };

    /// The next reading. It can't fail.
    fn now(&mut self) -> i64
        ensures { Tells (readings self.old) (readings self.new) (result ∷ []) };
}
