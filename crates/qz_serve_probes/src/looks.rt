//! The top call on the system's clock, for nodes in threads and looks at a status board.
ghost use Rattle.std.specs.Prelude.{map};
ghost use Rattle.qz_io.specs.Around.{output_alone};
ghost use Rattle.qz_words.specs.Serves.{serving_of};
ghost use Rattle.qz_serve_probes.specs.Promises.{Promised};
ghost use Rattle.qz_serve_probes.specs.Ways.{AsksLooks};

use qz_disk::Disk;
use qz_io::Sink;
use qz_node::{Job, Jobs};
use qz_rounds::SharedClock;
use qz_serve::{Gate, Served, serve as serve_nodes};
use qz_types::Text;
use std::alloc::Global;
use std::sync::Wait;
use std::thread::Threads;

/// Lets nodes work in threads, and looks meanwhile. The first word is `serve`, and there are three more.
pub fn look<
    R: Threads + Wait + Sync,
    K: Sink,
    E: Sink,
    D: Disk + Send,
    C: SharedClock + Sync,
    G: Gate + Sync,
>(
    rt: &R,
    alloc: Global,
    words: &[Text],
    out: &mut K,
    err: &mut E,
    triggers: D,
    states: D,
    clock: &C,
    jobs: &mut Vec<Jobs>,
    gate: &G,
) -> Served<D>
    requires { AsksLooks (serving_of words.now) }
    ensures { Promised D.Disk K.Sink E.Sink (C.shows clock.now) (serving_of words.now) (map (λ list. map means list.items) jobs.old.items) (map (λ list. map means list.items) jobs.new.items) triggers states result (output_alone K.Sink out.old) (output_alone K.Sink out.new) out.old out.new err.old err.new }
{
    let asked = words;
    let served = serve_nodes(
        rt, alloc, asked, out, err, triggers, states, clock, jobs, gate,
    );
    served
}
