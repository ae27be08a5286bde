//! In which slot a row probably is.
use indexmap::IndexMap;
use qz_types::{CalendarRow, FiredRow, JobRow, Key, Keyed, MemberRow, Text, TriggerRow, ZoneRow};
use std::alloc::{AllocError, Global};
use std::hash::{FoldHasher, Hasher};

/// A row whose id has a number, its mark. Few ids share one.
pub trait Marked: Keyed {
    fn mark(id: &Self::Id) -> u64;
}

/// Slots by the marks of ids. They are guesses: who asks for one looks whether the row in that slot has the id, and searches
/// for it if it hasn't. So nothing has to hold of them, two ids may share a mark, and a slot may be missing. It never takes
/// memory but in `reserve`.
#[derive(Drop)]
pub struct Guesses {
    slots: IndexMap<u64, usize>,
}

impl Guesses {
    pub fn new(alloc: Global) -> Guesses {
        Guesses {
            slots: IndexMap::new(alloc),
        }
    }

    /// The slot that was noted for this mark.
    pub fn get(&self, mark: u64) -> Option<usize> {
        match self.slots.get(&mark) {
            Some(slot) => Some(*slot),
            None => None,
        }
    }

    /// Whether no mark more can be noted.
    pub fn is_full(&self) -> bool {
        self.slots.len() >= self.slots.capacity()
    }

    /// Notes a slot for a mark, in place of another one of that mark. Where no mark more can be noted, it may do nothing.
    pub fn note(&mut self, mark: u64, slot: usize) {
        if let Some(noted) = self.slots.get_mut(&mark) {
            *noted = slot;
            return;
        }
        if !self.is_full() {
            drop(self.slots.insert(mark, slot));
        }
    }

    /// Forgets a slot, if it was noted for this mark.
    pub fn forget(&mut self, mark: u64, slot: usize) {
        if self.get(mark) == Some(slot) {
            self.slots.swap_remove(&mark);
        }
    }

    /// Forgets all.
    pub fn clear(&mut self) {
        self.slots.clear();
    }

    /// Makes room for twice so many marks. So at least as many are removed as there are rows before it is full.
    pub fn reserve(&mut self, rows: usize) -> Result<(), AllocError> {
        let marks = rows.saturating_add(rows);
        self.slots.reserve(marks.saturating_sub(self.slots.len()))
    }
}

fn mark_of_text(text: &Text) -> u64 {
    let mut hasher = FoldHasher::default();
    hasher.write(text.as_str().as_bytes());
    hasher.finish()
}

fn mark_of_key(key: &Key) -> u64 {
    let mut hasher = FoldHasher::default();
    hasher.write(key.group.as_str().as_bytes());
    hasher.write(key.name.as_str().as_bytes());
    hasher.finish()
}

impl Marked for JobRow {
    fn mark(id: &Key) -> u64 {
        mark_of_key(id)
    }
}

impl Marked for TriggerRow {
    fn mark(id: &Key) -> u64 {
        mark_of_key(id)
    }
}

impl Marked for CalendarRow {
    fn mark(id: &Text) -> u64 {
        mark_of_text(id)
    }
}

impl Marked for ZoneRow {
    fn mark(id: &Text) -> u64 {
        mark_of_text(id)
    }
}

/// A paused group.
impl Marked for Text {
    fn mark(id: &Text) -> u64 {
        mark_of_text(id)
    }
}

impl Marked for MemberRow {
    fn mark(id: &Text) -> u64 {
        mark_of_text(id)
    }
}

impl Marked for FiredRow {
    fn mark(id: &u64) -> u64 {
        *id
    }
}
