//! What is done with a planned number of looks.
ghost use Rattle.std.specs.Prelude.{◌≡◌, ◌+◌, ◌-◌, ◌<◌, length, Some, IfOk};
ghost use mathlib.Core.List.{IsPrefix};
ghost use Rattle.qz_board.specs.Boards.{offered, writer_basis, writer_board, reader_basis, reader_board};
ghost use Rattle.qz_board_looks.specs.Looks.{EndWithAll};
ghost use Rattle.qz_board_looks.specs.Watches.{GoesOn, first_of, planned, watched_basis};

use super::Watch;
use crate::looks::Looks;
use qz_board::{BoardReader, BoardWriter, Glance, Shown, Subject};
use qz_civil::{ListWithRoom, NoMemory};
use std::alloc::Global;
use std::sync::Wait;

impl<K: Subject> Watch<K> {
    /// No look yet of so many.
    pub fn new(alloc: Global, reader: BoardReader<K>, count: u32) -> Result<Watch<K>, NoMemory>
        ensures reader { IfOk result (λ watch. (watch.looks.reader ≡ reader) × (watch.looks.first.value ≡ reader)) }
        ensures planned { IfOk result (λ watch. planned watch ≡ count) }
    {
        let looks = Looks::new(alloc, reader, count as usize + 1)?;
        Ok(Watch { looks, left: count })
    }

    /// How many looks are left.
    pub fn left(&self) -> u32
        ensures { result ≡ self.now.left }
    {
        self.left
    }

    /// Looks once more, where a look is left. Waits for nobody, and takes no memory.
    pub fn look(&mut self)
        ensures goes_on { GoesOn self.old self.new }
        ensures left { self.new.left ≡ self.old.left - 1 }
    {
        if 0 < self.left {
            self.left -= 1;
            self.looks.look();
        }
    }

    // Makes the looks that are left.
    fn complete(self) -> Looks<K>
        ensures room { 0 < result.glances.room }
        ensures count { length result.glances.items ≡ planned self }
        ensures kept { (reader_basis result.reader ≡ watched_basis self) × (reader_board result.reader ≡ reader_board self.looks.reader) × (result.first ≡ self.looks.first) }
    {
        let mut watch = self;
        for _ in 0..watch.left {
            watch.look();
        }
        let Watch { looks, left: _ } = watch;
        looks
    }

    /// Makes the looks that are left, posts what this value shows, looks once more, at all of it, and gives what was seen.
    /// `NoMemory` is answered where the post finds none.
    pub fn finish<S: Shown<K>, R: Wait>(
        self,
        rt: &R,
        writer: &mut BoardWriter<K>,
        from: &S,
    ) -> Result<ListWithRoom<Glance>, NoMemory>
        requires goes_on { IsPrefix (offered writer.old) (S.history from.now) }
        requires basis { (writer_basis writer.old ≡ Some (S.basis from.now)) × (watched_basis self ≡ Some (S.basis from.now)) }
        requires board { reader_board self.looks.reader ≡ writer_board writer.old }
        ensures count { IfOk result (λ glances. length glances.items ≡ planned self + 1) }
        ensures all { IfOk result (λ glances. ∥ EndWithAll (K.glance_of (S.basis from.now)) (first_of self) glances.items (S.history from.now) ∥₁) }
    {
        let looks = self.complete();
        looks.finish(rt, writer, from)
    }
}
