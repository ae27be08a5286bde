//! The calls of a planned number of looks, and the lines of what they saw.
ghost use Rattle.std.specs.Prelude.{◌≡◌, ◌-◌, IfOk};
ghost use Rattle.std.specs.List.{flat_map};
ghost use Rattle.qz_board_lines.specs.Lines.{board_text};
ghost use Rattle.qz_board_looks.specs.Watches.{GoesOn, planned};

use qz_board::{BoardReader, Glance, Subject};
use qz_board_lines::{board_line, board_lines};
use qz_board_looks::Watch;
use qz_civil::{NoMemory, Text};
use std::alloc::Global;

/// [`Watch::new`].
pub fn make_watch<K: Subject>(
    alloc: Global,
    reader: BoardReader<K>,
    count: u32,
) -> Result<Watch<K>, NoMemory>
    ensures reader { IfOk result (λ watch. (watch.looks.reader ≡ reader) × (watch.looks.first.value ≡ reader)) }
    ensures planned { IfOk result (λ watch. planned watch ≡ count) }
{
    let looks = count;
    Watch::new(alloc, reader, looks)
}

/// [`Watch::look`].
pub fn watch<K: Subject>(watch: &mut Watch<K>)
    ensures goes_on { GoesOn watch.old watch.new }
    ensures left { watch.new.left ≡ watch.old.left - 1 }
{
    watch.look();
}

/// [`board_line`].
pub fn tell_one(alloc: Global, glance: &Glance) -> Result<Text, NoMemory>
    ensures { IfOk result (λ text. text ≡ board_text glance.now) }
{
    let shown = *glance;
    board_line(alloc, &shown)
}

/// [`board_lines`].
pub fn tell_all(alloc: Global, glances: &[Glance]) -> Result<Text, NoMemory>
    ensures { IfOk result (λ text. text ≡ flat_map board_text glances.now) }
{
    let shown = glances;
    board_lines(alloc, shown)
}
