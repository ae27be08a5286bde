//! Looks that are kept.
ghost use Rattle.std.specs.Prelude.{◌≡◌, ◌+◌, ◌<◌, ◌≤◌, ◌++◌, ◌∷◌, [], Some, IfOk, IfSome};
ghost use Rattle.std.proofs.Props.{props};
ghost use mathlib.Core.List.{IsPrefix};
ghost use Rattle.qz_board.specs.declared.glance.Glance.{Glance as Seen};
ghost use Rattle.qz_board.specs.Boards.{offered, writer_basis, writer_board, seen, reader_basis, reader_board};
ghost use Rattle.qz_board_looks.specs.Looks.{AreLooks, EndWithAll};

use crate::last::look_at_all;
use qz_board::{BoardReader, BoardWriter, Glance, Shown, Subject};
use qz_civil::{ListWithRoom, NoMemory};
use std::alloc::Global;
use std::snapshot::Snapshot;
use std::sync::Wait;

/// A reader, and what it saw look by look. It may be sent to another thread.
#[derive(Drop)]
pub struct Looks<K: Subject> {
    reader: BoardReader<K>,
    // The reader as it was before all looks.
    first: Snapshot<BoardReader<K>>,
    glances: ListWithRoom<Glance>,
    ghost looks: { IfSome (reader_basis reader) (λ b. ∥ AreLooks (K.glance_of b) (seen first.value) glances.items (seen reader) ∥₁) } by { Prim.hlevel props },
}

impl<K: Subject> Looks<K> {
    /// No look yet, and room for so many.
    pub fn new(alloc: Global, reader: BoardReader<K>, count: usize) -> Result<Looks<K>, NoMemory>
        ensures reader { IfOk result (λ looks. (looks.reader ≡ reader) × (looks.first.value ≡ reader)) }
        ensures room { IfOk result (λ looks. count ≤ looks.glances.room) }
        ensures none { IfOk result (λ looks. looks.glances.items ≡ []) }
    {
        let mut glances = ListWithRoom::new(alloc);
        glances.reserve(count)?;
        let first = Snapshot::of(&reader);
        Ok(Looks {
            reader,
            first,
            glances,
        })
    }

    /// Looks once more. Waits for nobody, and takes no memory.
    pub fn look(&mut self)
        requires { 0 < self.old.glances.room }
        ensures room { self.new.glances.room + 1 ≡ self.old.glances.room }
        ensures one { (glance : Seen) × (self.new.glances.items ≡ self.old.glances.items ++ glance ∷ []) }
        ensures later { IsPrefix (seen self.old.reader) (seen self.new.reader) }
        ensures kept { (reader_basis self.new.reader ≡ reader_basis self.old.reader) × (reader_board self.new.reader ≡ reader_board self.old.reader) }
        ensures first { self.new.first ≡ self.old.first }
    {
        let glance = self.reader.look();
        self.glances.push_reserved(glance);
    }

    /// Posts what this value shows, looks once more, at all of it, and gives what was seen. `NoMemory` is answered where the
    /// post finds none.
    pub fn finish<S: Shown<K>, R: Wait>(
        self,
        rt: &R,
        writer: &mut BoardWriter<K>,
        from: &S,
    ) -> Result<ListWithRoom<Glance>, NoMemory>
        requires room { 0 < self.glances.room }
        requires goes_on { IsPrefix (offered writer.old) (S.history from.now) }
        requires basis { (writer_basis writer.old ≡ Some (S.basis from.now)) × (reader_basis self.reader ≡ Some (S.basis from.now)) }
        requires board { reader_board self.reader ≡ writer_board writer.old }
        ensures each { IfOk result (λ glances. glances.items ≡ self.glances.items ++ K.glance_of (S.basis from.now) (S.history from.now) ∷ []) }
        ensures all { IfOk result (λ glances. ∥ EndWithAll (K.glance_of (S.basis from.now)) (seen self.first.value) glances.items (S.history from.now) ∥₁) }
        ensures offered { offered writer.new ≡ S.history from.now }
        ensures kept { (writer_basis writer.new ≡ writer_basis writer.old) × (writer_board writer.new ≡ writer_board writer.old) }
    {
        let Looks {
            mut reader,
            first: _,
            mut glances,
        } = self;
        let glance = look_at_all(rt, writer, &mut reader, from)?;
        glances.push_reserved(glance);
        Ok(glances)
    }
}
