//! `list`: what the stores of two disks hold.
ghost use Rattle.std.specs.Prelude.{◌≡◌, ◌≢◌, ◌⊎◌};
ghost use Rattle.qz_civil.specs.Causes.{Rose};
ghost use Rattle.qz_io.specs.Around.{output_alone};
ghost use Rattle.qz_cluster.specs.View.{view as cluster_view};
ghost use Rattle.qz_top.specs.Asked.{RanList};
ghost use Rattle.qz_top.specs.Calls.{ListedOnDisk};
ghost use Rattle.qz_top.specs.HandingOn.{HandsOnWritten};
ghost use Rattle.qz_top.specs.Lists.{WritesText, lines_of};
ghost use Rattle.qz_top.specs.Moments.{BeginsOn};

use crate::Status;
use crate::ended::Ended;
use crate::opening::open_run;
use crate::runs::Run;
use crate::writing::write_text;
use qz_disk::Disk;
use qz_io::Sink;
use qz_listing::list_lines;
use qz_trigger_store::Keep;
use std::alloc::Global;

/// Opens both stores, and writes a line for each row of theirs.
pub(crate) fn list_on_disk<K: Sink, D: Disk>(
    alloc: Global,
    out: &mut K,
    triggers: D,
    states: D,
) -> Ended<D>
    ensures done { RanList triggers states result (output_alone K.Sink out.old) (output_alone K.Sink out.new) }
    ensures disk { result.status ≡ Status.DiskFault → Rose (D.faults triggers) (D.faults result.triggers) ⊎ Rose (D.faults states) (D.faults result.states) }
    ensures read { result.status ≢ Status.ReadFault }
    ensures write { result.status ≡ Status.WriteFault → Rose (K.faults out.old) (K.faults out.new) }
    ensures handed { HandsOnWritten K.Sink out.old out.new }
{
    match open_run(alloc, triggers, states, Keep::Tables) {
        Ok(run) => list_opened(out, run),
        Err(ended) => ended,
    }
}

// Writes the lines of the stores that were opened.
fn list_opened<K: Sink, D: Disk>(out: &mut K, run: Run<D>) -> Ended<D>
    ensures done { (triggers : D) → (states : D) → BeginsOn triggers states run
        → ListedOnDisk triggers states result (output_alone K.Sink out.old) (output_alone K.Sink out.new) }
    ensures other { (result.status ≢ Status.ReadFault) × (result.status ≢ Status.DiskFault) }
    ensures write { result.status ≡ Status.WriteFault → Rose (K.faults out.old) (K.faults out.new) }
    ensures handed { HandsOnWritten K.Sink out.old out.new }
{
    let status = list(out, &run);
    run.end(status)
}

// The same, on the stores where they are.
fn list<K: Sink, D: Disk>(out: &mut K, run: &Run<D>) -> Status
    ensures written { WritesText result (lines_of (cluster_view run.now.cluster)) (output_alone K.Sink out.old) (output_alone K.Sink out.new) }
    ensures write { result ≡ Status.WriteFault → Rose (K.faults out.old) (K.faults out.new) }
    ensures handed { HandsOnWritten K.Sink out.old out.new }
{
    match list_lines(run.alloc, run.cluster.tables(), run.cluster.rows()) {
        Ok(text) => write_text(out, text.as_str()),
        Err(_) => Status::NoMemory,
    }
}
