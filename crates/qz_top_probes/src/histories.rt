//! The call that tells what was done.
ghost use Rattle.std.specs.Prelude.{◌≡◌};
ghost use Rattle.qz_civil.specs.Causes.{Rose};
ghost use Rattle.qz_top.specs.HandingOn.{HandsOnWritten};
ghost use Rattle.qz_words.specs.Histories.{history_of};
ghost use Rattle.qz_tell.specs.Histories.{DidAsAsked, DiskFailed, IsComplete, Reports};

use qz_disk::Disk;
use qz_io::Sink;
use qz_tell::{Told, history};
use qz_top::Status;
use qz_types::Text;
use std::alloc::Global;

/// Tells what was done: the first word is `history`.
pub fn tell<K: Sink, E: Sink, D: Disk>(
    alloc: Global,
    words: &[Text],
    out: &mut K,
    err: &mut E,
    triggers: D,
    states: D,
) -> Told<D>
    ensures done { DidAsAsked D.Disk (history_of words.now) triggers states result (K.held out.old) (K.held out.new) }
    ensures write { result.status ≡ Status.WriteFault → Rose (K.faults out.old) (K.faults out.new) }
    ensures disk { result.status ≡ Status.DiskFault → DiskFailed D.Disk triggers states result }
    ensures complete { IsComplete D.Disk K.Sink (history_of words.now) triggers states result out.old out.new }
    ensures handed { HandsOnWritten K.Sink out.old out.new }
    ensures reported { Reports E.Sink result.status result.begins err.old err.new }
{
    history(alloc, words, out, err, triggers, states)
}
