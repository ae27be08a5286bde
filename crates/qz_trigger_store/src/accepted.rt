//! What a store accepted since its mount.
ghost use Rattle.std.specs.Prelude.{◌≡◌, ◌++◌, ◌∷◌, ◌<◌, [], OnOk};
ghost use Rattle.qz_trigger_store.specs.Accepted.{HasRoomForOne, SameItems};

use qz_civil::ListWithRoom;
use qz_types::{Entry, NoMemory, Reply};
use std::alloc::Global;

/// What an open store keeps in memory.
#[derive(Clone, Copy)]
pub enum Keep {
    /// Its tables alone.
    Tables,
    /// Its tables, and each entry that it accepts, with its recorded moment and its reply. So memory grows with each entry.
    Entries,
}

/// The entries that a store accepted since its mount, and the recorded moment and the reply of each.
#[derive(Drop)]
pub struct Accepted {
    pub(crate) entries: ListWithRoom<Entry>,
    pub(crate) moments: ListWithRoom<i64>,
    pub(crate) replies: ListWithRoom<Reply>,
}

impl Accepted {
    pub(crate) fn new(alloc: Global) -> Accepted
        ensures { (result.entries.items ≡ []) × (result.moments.items ≡ []) × (result.replies.items ≡ []) }
    {
        Accepted {
            entries: ListWithRoom::new(alloc),
            moments: ListWithRoom::new(alloc),
            replies: ListWithRoom::new(alloc),
        }
    }

    /// The entries, in order.
    pub fn entries(&self) -> &[Entry]
        ensures { result.now ≡ self.now.entries.items }
    {
        self.entries.as_slice()
    }

    /// Their recorded moments, in ms since 1970-01-01T00:00:00Z.
    pub fn moments(&self) -> &[i64]
        ensures { result.now ≡ self.now.moments.items }
    {
        self.moments.as_slice()
    }

    /// The replies to them.
    pub fn replies(&self) -> &[Reply]
        ensures { result.now ≡ self.now.replies.items }
    {
        self.replies.as_slice()
    }

    /// Makes room for one more.
    pub(crate) fn reserve(&mut self) -> Result<(), NoMemory>
        ensures items { SameItems self.old self.new }
        ensures room { OnOk result (HasRoomForOne self.new) }
    {
        self.entries.reserve(1)?;
        self.moments.reserve(1)?;
        self.replies.reserve(1)?;
        Ok(())
    }

    /// Puts one more last, in the room that was made.
    pub(crate) fn push_reserved(&mut self, entry: Entry, moment: i64, reply: Reply)
        requires { HasRoomForOne self.old }
        ensures entries { self.new.entries.items ≡ self.old.entries.items ++ entry ∷ [] }
        ensures moments { self.new.moments.items ≡ self.old.moments.items ++ moment ∷ [] }
        ensures replies { self.new.replies.items ≡ self.old.replies.items ++ reply ∷ [] }
    {
        self.entries.push_reserved(entry);
        self.moments.push_reserved(moment);
        self.replies.push_reserved(reply);
    }
}
