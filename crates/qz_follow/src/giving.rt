//! A follower that gives its tables away.
ghost use Rattle.std.specs.Prelude.{◌≡◌, IsTrue};
ghost use Rattle.qz_journal.specs.Layout.{is_version};
ghost use Rattle.qz_model.specs.History.{replay_from};
ghost use Rattle.qz_trigger_store.specs.Kinds.{trigger_kind};
ghost use Rattle.qz_follow.specs.Following.{short_at};
ghost use Rattle.qz_follow.specs.Taking.{may_be_part};
ghost use Rattle.qz_follow.specs.View.{view, held};

use crate::basing::{FIRST_GATE, start_of};
use crate::holding::Taken;
use crate::{Follower, Stage};
use qz_journal::{FRAME_LENGTH, Slots};
use qz_plain::PlainStore;
use qz_snapshot::is_part;

impl Follower {
    /// Why nothing can be made of what was fed, at this offset in bytes, or None where something can. Less than the 16 bytes of a
    /// header were fed, and none of them is a bad place: then it is their number. Or the stream has a base, and its snapshot isn't
    /// whole: then it is the gate of the slot that leads to it, 6 or 11.
    pub fn short(&self) -> Option<u64>
        ensures { result ≡ short_at (view self.now) }
    {
        if let Some(length) = self.stream.header_length() {
            return Some(length as u64);
        }
        let slots = self.stream.slots();
        match self.taken.stage {
            Stage::First => {
                if may_be_part(self.stream.tail(), &slots) {
                    slots.in_use()
                } else {
                    None
                }
            }
            Stage::Awaited { slot } => Some(slot),
            Stage::Settled => None,
        }
    }

    /// The version of the format that the stream has, 1 or 2, and the tables that the entries leave; 2 and those of a new store
    /// before the first five bytes are there and right. Where `short` says so they are those of a new store.
    pub fn into_tables(self) -> (u8, PlainStore)
        ensures version { (result.0 ≡ (view self).version) × IsTrue (is_version result.0) }
        ensures tables { result.1.tables ≡ replay_from (view self).start (view self).entries }
    {
        let Follower {
            stream: _,
            taken,
            fault: _,
        } = self;
        taken.into_tables()
    }
}

// Whether the first payload is a part of a snapshot, as far as it is there: by its first byte, and where that is missing by a slot in
// use that leads to it.
fn may_be_part(block: &[u8], slots: &Slots) -> bool
    ensures { result ≡ may_be_part trigger_kind block.now slots.now }
{
    if block.len() <= FRAME_LENGTH {
        return start_of(slots) == FIRST_GATE;
    }
    let (_, payload) = block.split_at(FRAME_LENGTH);
    is_part(payload)
}

impl Taken {
    // The same of what was taken.
    fn into_tables(self) -> (u8, PlainStore)
        ensures version { (result.0 ≡ self.version) × IsTrue (is_version result.0) }
        ensures tables { result.1.tables ≡ replay_from (held self).start self.entries.items }
    {
        let Taken {
            alloc: _,
            tables,
            version,
            start: _,
            stage: _,
            parts: _,
            base: _,
            entries: _,
            count: _,
            end: _,
            kept: _,
        } = self;
        (version, tables)
    }
}
