//! Writing a text whole, and handing on what was written.
ghost use Rattle.std.specs.Prelude.{◌≡◌, ◌⊎◌, ◌≤◌, []};
ghost use Rattle.std.specs.Io.KnownBytes.{Appends};
ghost use Rattle.qz_civil.specs.Causes.{Rose};
ghost use Rattle.qz_io.specs.Around.{output_alone};
ghost use Rattle.qz_top.specs.HandingOn.{HandsOnAll};
ghost use Rattle.qz_top.specs.Lists.{WritesText};

use crate::Status;
use qz_io::{Sink, write_all};

/// Writes a text, and hands it on. Where the output fails before, what it holds is handed on if it can be.
pub(crate) fn write_text<K: Sink>(out: &mut K, text: &str) -> Status
    ensures status { (result ≡ Status.Ok) ⊎ (result ≡ Status.WriteFault) }
    ensures written { WritesText result text.now (output_alone K.Sink out.old) (output_alone K.Sink out.new) }
    ensures write { result ≡ Status.WriteFault → Rose (K.faults out.old) (K.faults out.new) }
    ensures handed { HandsOnAll K.Sink out.old out.new }
{
    if write_all(out, text.as_bytes()).is_err() {
        hand_on(out);
        return Status::WriteFault;
    }
    match out.flush() {
        Ok(()) => Status::Ok,
        Err(_) => Status::WriteFault,
    }
}

/// Hands on what the output holds where a call ends early. That this fails is passed over: another cause was met first, and
/// the output counts its failures.
pub(crate) fn hand_on<K: Sink>(out: &mut K)
    ensures kept { Appends (K.held out.old) (K.held out.new) [] }
    ensures handed { HandsOnAll K.Sink out.old out.new }
    ensures later { K.faults out.old ≤ K.faults out.new }
{
    let _ = out.flush();
}
