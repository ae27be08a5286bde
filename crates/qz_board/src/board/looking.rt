//! What a reader does.
ghost use Rattle.std.specs.Prelude.{◌≡◌, ◌⊎◌};
ghost use mathlib.Core.List.{IsPrefix};
ghost use Rattle.qz_board.specs.Posts.{entries_of, basis_of, Shows};
ghost use Rattle.qz_board.specs.Boards.{seen, reader_basis, reader_board, noted, note_board};

use super::steps::read;
use super::{BoardReader, Posted};
use crate::glance::Glance;
use crate::page::Page;
use crate::shown::Subject;
use core::mem::replace_with;

impl<K: Subject> BoardReader<K> {
    /// What the board shows now. Waits for nobody, and takes no memory. Where the writer was closed, it is what this
    /// reader saw last or was told.
    pub fn look(&mut self) -> Glance
        ensures glance { Shows K.glance_of (reader_basis self.new) (seen self.new) result }
        ensures later { IsPrefix (seen self.old) (seen self.new) }
        ensures kept { (reader_basis self.new ≡ reader_basis self.old) × (reader_board self.new ≡ reader_board self.old) }
    {
        if let Some(page) = replace_with(&mut self.reader, (), read::<K>) {
            self.turn_to(page);
        }
        self.last.sheet.glance
    }

    /// Learns what was posted: from now on this reader has seen that, and no less than before. Takes no memory.
    pub fn learn(&mut self, posted: Posted<K>)
        requires board { note_board posted ≡ reader_board self.old }
        ensures told { IsPrefix (noted posted) (seen self.new) }
        ensures later { IsPrefix (seen self.old) (seen self.new) }
        ensures one { (seen self.new ≡ noted posted) ⊎ (seen self.new ≡ seen self.old) }
        ensures kept { (reader_basis self.new ≡ reader_basis self.old) × (reader_board self.new ≡ reader_board self.old) }
    {
        let Posted { page } = posted;
        self.turn_to(page);
    }

    // Keeps the later one of the page that was seen last and of this one.
    fn turn_to(&mut self, page: Page<K>)
        requires board { page.sheet.front.book ≡ reader_board self.old }
        ensures told { IsPrefix (entries_of page.sheet.front.log) (seen self.new) }
        ensures later { IsPrefix (seen self.old) (seen self.new) }
        ensures one { (seen self.new ≡ entries_of page.sheet.front.log) ⊎ (seen self.new ≡ seen self.old) }
        ensures kept { (reader_basis self.new ≡ reader_basis self.old) × (reader_board self.new ≡ reader_board self.old) }
    {
        let mut both = self.last.sheet.front.again();
        both.learn(&page.sheet.front);
        if self.last.sheet.glance.entries < page.sheet.glance.entries {
            self.last = page;
        }
    }
}
