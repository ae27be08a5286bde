//! What a call writes.
ghost use Rattle.std.specs.Prelude.{◌≡◌, ℕ, List, Option, true, Some, IfOk};
ghost use mathlib.Core.List.{IsPrefix};
ghost use Rattle.qz_board_stores.specs.StatusBoards.{ShowsUpTo, looks_of, opened_with};
ghost use Rattle.qz_civil.specs.Causes.{Rose};
ghost use Rattle.qz_io.specs.Around.{output_alone};
ghost use Rattle.qz_model.specs.History.{replay};
ghost use Rattle.qz_trigger_store.specs.View.{view as triggers_view, added_of, keeps_of};
ghost use Rattle.qz_types.specs.Entries.{EntryData};
ghost use Rattle.qz_top.specs.Found.{found_history};
ghost use Rattle.qz_top.specs.HandingOn.{HandsOnWritten};
ghost use Rattle.qz_top.specs.NodeRuns.{IsOfNodes, IsToldAs, text_since};
ghost use Rattle.qz_serve.specs.Boards.{ShowsBoard, ShowsSoFar, WritesAfterBoard, plan, plan_of};

use qz_board_lines::board_lines;
use qz_board_stores::StatusBoard;
use qz_disk::Disk;
use qz_io::Sink;
use qz_top::{Status, tell_run, tell_run_after};
use qz_trigger_store::TriggerStore;
use qz_types::{NoMemory, Text};
use std::alloc::Global;
use std::sync::Wait;

/// Writes the lines of the board, those of what was added and the summary line, unless memory ran out before.
pub(crate) fn tell<K: Sink, D: Disk, H: Wait + Drop>(
    alloc: Global,
    triggers: &TriggerStore<D>,
    board: Option<StatusBoard<H>>,
    work: Status,
    out: &mut K,
) -> Status
    requires status { IsOfNodes work }
    requires keeps { keeps_of triggers.now ≡ true }
    requires shows { ShowsSoFar board (triggers_view triggers.now).history }
    ensures written { (looks : Option ℕ) (opened : List EntryData) → IsPrefix opened (triggers_view triggers.now).history.entries → plan_of board ≡ plan looks opened
        → WritesAfterBoard looks opened (triggers_view triggers.now).history result (text_since (found_history triggers.now) (replay (triggers_view triggers.now).history) (added_of triggers.now)) (output_alone K.Sink out.old) (output_alone K.Sink out.new) }
    ensures status { IsToldAs result work }
    ensures write { result ≡ Status.WriteFault → Rose (K.faults out.old) (K.faults out.new) }
    ensures handed { HandsOnWritten K.Sink out.old out.new }
{
    match work {
        Status::NoMemory => Status::NoMemory,
        other => match board {
            Some(shown) => tell_after_board(alloc, triggers, shown, other, out),
            None => tell_run(alloc, triggers, other, out),
        },
    }
}

// Writes the lines of the board, and the others after them.
fn tell_after_board<K: Sink, D: Disk, H: Wait + Drop>(
    alloc: Global,
    triggers: &TriggerStore<D>,
    shown: StatusBoard<H>,
    work: Status,
    out: &mut K,
) -> Status
    requires status { IsOfNodes work }
    requires keeps { keeps_of triggers.now ≡ true }
    requires shows { ShowsUpTo shown (triggers_view triggers.now).history }
    ensures written { IsPrefix (opened_with shown) (triggers_view triggers.now).history.entries
        → WritesAfterBoard (Some (looks_of shown)) (opened_with shown) (triggers_view triggers.now).history result (text_since (found_history triggers.now) (replay (triggers_view triggers.now).history) (added_of triggers.now)) (output_alone K.Sink out.old) (output_alone K.Sink out.new) }
    ensures status { IsToldAs result work }
    ensures write { result ≡ Status.WriteFault → Rose (K.faults out.old) (K.faults out.new) }
    ensures handed { HandsOnWritten K.Sink out.old out.new }
{
    match lines_of_board(alloc, triggers, shown) {
        Ok(lines) => tell_run_after(alloc, &lines, triggers, work, out),
        Err(NoMemory) => Status::NoMemory,
    }
}

// The lines of the looks, with that of the last one, at all that there is.
fn lines_of_board<D: Disk, H: Wait + Drop>(
    alloc: Global,
    triggers: &TriggerStore<D>,
    shown: StatusBoard<H>,
) -> Result<Text, NoMemory>
    requires { ShowsUpTo shown (triggers_view triggers.now).history }
    ensures { IfOk result (λ lines. ShowsBoard (looks_of shown) (opened_with shown) (triggers_view triggers.now).history lines) }
{
    let glances = shown.finish(triggers)?;
    board_lines(alloc, glances.as_slice())
}
