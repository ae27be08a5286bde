//! The top call, for `compact`.
ghost use Rattle.std.specs.Prelude.{map};
ghost use Rattle.qz_io.specs.Around.{outside};
ghost use Rattle.qz_top.specs.Causes.{counts};
ghost use Rattle.qz_top_probes.specs.Promises.{Promised};
ghost use Rattle.qz_top_probes.specs.Ways.{AsksCompact};
ghost use Rattle.qz_words.specs.Wishes.{wish_of};

use qz_disk::Disk;
use qz_io::{Clock, Sink, Source};
use qz_node::{Job, Jobs};
use qz_top::{Ended, command};
use qz_types::Text;
use std::alloc::Global;

/// Makes both stores of the bytes of a trigger store: the word is `compact`, which puts a snapshot in place of the entries.
pub fn compact<S: Source, K: Sink, E: Sink, D: Disk, C: Clock>(
    alloc: Global,
    words: &[Text],
    input: &mut S,
    out: &mut K,
    err: &mut E,
    triggers: D,
    states: D,
    clock: &mut C,
    jobs: &mut Jobs,
) -> Ended<D>
    requires { AsksCompact (wish_of words.now) }
    ensures { Promised K.Sink E.Sink (wish_of words.now) (map means jobs.old.items) (map means jobs.new.items) triggers states result (outside S.Source K.Sink C.Clock input.old out.old clock.old) (outside S.Source K.Sink C.Clock input.new out.new clock.new) (counts S.Source K.Sink D.Disk input.old out.old triggers states) (counts S.Source K.Sink D.Disk input.new out.new result.triggers result.states) out.old out.new err.old err.new }
{
    command(alloc, words, input, out, err, triggers, states, clock, jobs)
}
