//! A disk in memory.
ghost use Rattle.std.specs.Prelude.{◌≡◌, ◌+◌, ◌≤◌, ◌<◌, [], ◌∷◌, ◌++◌, ℕ, length, drop, max, true, false, OnOk, OnErr, IfOk, IfErr, vec_len, vec_capacity, slice_index_or};
ghost use Rattle.qz_civil.specs.Causes.{HasCause};
ghost use Rattle.qz_disk.specs.Memory.{standing_of};

use crate::images::{first_image, overwrite};
use crate::{Call, Disk};
use qz_civil::{Failed, List, NoMemory};
use std::alloc::Global;

/// A disk in memory, which keeps a record of its calls.
///
/// A `restart` keeps the unsynced bytes as written, unless other bytes were chosen for it. A call that finds no memory
/// answers `Failed`, counts as `starved`, and changes nothing else.
#[derive(Drop)]
pub struct MemDisk {
    alloc: Global,
    first: List<u8>,
    calls: Vec<Call>,
    // what the calls lead to, once the first bytes were copied
    content: Vec<u8>,
    copied: bool,
    images: List<List<u8>>,
    starved: u64,
    ghost fresh: { copied ≡ false → calls.items ≡ [] },
    ghost kept: { copied ≡ true → content.items ≡ (standing_of first calls.items).content },
}

impl MemDisk {
    ghost use Rattle.qz_disk.specs.declared.calls.Call.TheVariants.{Restart};
    ghost use Rattle.qz_disk.specs.Memory.{BringsUp};
    ghost use Rattle.qz_disk.specs.Recorded.{Record, record_of, begun, content_of};

    /// An empty disk.
    pub fn new(alloc: Global) -> Self
        ensures { record_of result ≡ begun [] }
    {
        MemDisk::with_bytes(alloc, List::new(alloc))
    }

    /// A disk that holds these bytes, as if they were synced.
    pub fn with_bytes(alloc: Global, bytes: List<u8>) -> Self
        ensures { record_of result ≡ begun bytes }
    {
        MemDisk {
            alloc,
            first: bytes,
            calls: Vec::new(alloc),
            content: Vec::new(alloc),
            copied: false,
            images: List::new(alloc),
            starved: 0,
        }
    }

    /// Chooses what the coming restarts bring up, in place of what was chosen before. Each restart takes the first
    /// listed bytes that a crash may leave by then; it passes over those before them, and the next restart goes on
    /// after them. Where none is left, the bytes come up as they were written.
    pub fn choose(&mut self, images: List<List<u8>>)
        ensures { record_of self.new ≡ record { first = self.old.first; calls = self.old.calls.items; images = images; starved = self.old.starved } }
    {
        self.images = images;
    }

    /// How many of its calls found no memory. The count ends at 2^64 - 1.
    pub fn starved(&self) -> u64
        ensures { result ≡ (record_of self.now).starved }
    {
        self.starved
    }

    /// The calls that answered Ok, in order.
    pub fn calls(&self) -> &[Call]
        ensures { result.now ≡ (record_of self.now).calls }
    {
        &self.calls
    }

    // Copies the first bytes, once, and makes room for the record of one call.
    fn prepare(&mut self) -> Result<(), NoMemory>
        ensures first { self.new.first ≡ self.old.first }
        ensures calls { self.new.calls.items ≡ self.old.calls.items }
        ensures images { self.new.images ≡ self.old.images }
        ensures starved { self.new.starved ≡ self.old.starved }
        ensures copied { OnOk result (self.new.copied ≡ true) }
        ensures room { OnOk result (vec_len self.new.calls < vec_capacity self.new.calls) }
    {
        if !self.copied {
            self.content.clear();
            self.content.extend_from_slice(self.first.as_slice())?;
            self.copied = true;
        }
        self.calls.reserve(1)?;
        Ok(())
    }

    // Makes an image the content: the first chosen one that is one, or the bytes as written.
    fn bring_up(&mut self) -> Result<(), NoMemory>
        requires copied { self.old.copied ≡ true }
        requires room { vec_len self.old.calls < vec_capacity self.old.calls }
        ensures first { self.new.first ≡ self.old.first }
        ensures starved { self.new.starved ≡ self.old.starved }
        ensures calls { OnOk result (self.new.calls.items ≡ self.old.calls.items ++ Restart (content_of (record_of self.new)) ∷ []) }
        ensures chosen { OnOk result (BringsUp (standing_of self.old.first self.old.calls.items) self.old.images
            (content_of (record_of self.new)) self.new.images) }
        ensures err { OnErr result (record_of self.new ≡ record_of self.old) }
    {
        match first_image(
            self.alloc,
            self.first.as_slice(),
            &self.calls,
            self.images.as_slice(),
        )? {
            Some(place) => {
                let content = Vec::from_slice(
                    self.alloc,
                    self.images.as_slice()[place].as_slice(),
                )?;
                let image = take_image(&mut self.images, place);
                self.content = content;
                self.calls.push_reserved(Call::Restart { image });
            }
            None => {
                let image = List::from_vec(Vec::from_slice(self.alloc, &self.content)?);
                self.images = List::new(self.alloc);
                self.calls.push_reserved(Call::Restart { image });
            }
        }
        Ok(())
    }
}

// The image at this place, with those before it taken out too.
fn take_image(images: &mut List<List<u8>>, place: usize) -> List<u8>
    requires { place < length images.old }
    ensures image { result ≡ slice_index_or images.old place [] }
    ensures left { images.new ≡ drop (place + 1) images.old }
{
    for _turn in 0..place {
        images.remove(0);
    }
    images.remove(0)
}

impl Disk for MemDisk {
    ghost use Rattle.std.specs.Prelude.{length, refl};
    ghost use Rattle.qz_disk.specs.declared.calls.Call.TheVariants.{Len, Read, Write, Sync};
    ghost use Rattle.qz_disk.specs.Disk.{Measured, Reads, Writes, Syncs, Restarts};
    ghost use Rattle.qz_disk.specs.Memory.{standing_of, memory_state};
    ghost use Rattle.qz_disk.specs.MemoryLaws.{memory_lawful};
    ghost use Rattle.qz_disk.specs.Recorded.{record_of, Records, RecordsRestart, state_of, length_of};

    ghost honest = { Unit {0} };

    ghost len = { λ d. length (standing_of d.first d.calls.items).content };

    ghost faults = { λ d. d.starved };

    ghost state = { λ d. memory_state d.first d.calls.items };

    ghost lawful = { λ h d. memory_lawful d.first d.calls.items };

    ghost whole = { λ h d. refl };

    fn len(&mut self) -> Result<u64, Failed>
        ensures length { IfOk result (λ n. n ≡ length_of self.new) }
        ensures length_err { OnErr result (length_of self.new ≡ length_of self.old) }
        ensures cause { HasCause self.old.starved self.new.starved result }
        ensures told { Unit {0} → Measured (state_of self.old) (state_of self.new) }
        ensures recorded { Records Len result (record_of self.old) (record_of self.new) }
    {
        if self.prepare().is_err() {
            self.starved = self.starved.saturating_add(1);
            return Err(Failed);
        }
        self.calls.push_reserved(Call::Len);
        Ok(self.content.len() as u64)
    }

    fn read(&mut self, at: u64, into: &mut [u8]) -> Result<(), Failed>
        requires { at + length into.old ≤ length_of self.old }
        ensures length { length_of self.new ≡ length_of self.old }
        ensures cause { HasCause self.old.starved self.new.starved result }
        ensures told { Unit {0} → Reads at result into.new (state_of self.old) (state_of self.new) }
        ensures recorded { Records (Read at (length into.old)) result (record_of self.old) (record_of self.new) }
    {
        if self.prepare().is_err() {
            self.starved = self.starved.saturating_add(1);
            return Err(Failed);
        }
        let start = at as usize;
        into.copy_from_slice(&self.content[start..start + into.len()]);
        self.calls.push_reserved(Call::Read {
            at,
            count: into.len() as u64,
        });
        Ok(())
    }

    fn write_at(&mut self, at: u64, from: &[u8]) -> Result<(), Failed>
        requires { at ≤ length_of self.old }
        ensures length { OnOk result (length_of self.new ≡ max (length_of self.old) (at + length from.now)) }
        ensures cause { HasCause self.old.starved self.new.starved result }
        ensures told { Unit {0} → Writes at from.now result (state_of self.old) (state_of self.new) }
        ensures recorded { Records (Write at from.now) result (record_of self.old) (record_of self.new) }
    {
        if self.prepare().is_err() {
            self.starved = self.starved.saturating_add(1);
            return Err(Failed);
        }
        match Vec::from_slice(self.alloc, from) {
            Ok(bytes) if overwrite(&mut self.content, at as usize, from).is_ok() => {
                let bytes = List::from_vec(bytes);
                self.calls.push_reserved(Call::Write { at, bytes });
                Ok(())
            }
            _ => {
                self.starved = self.starved.saturating_add(1);
                Err(Failed)
            }
        }
    }

    fn sync(&mut self) -> Result<(), Failed>
        ensures length { OnOk result (length_of self.new ≡ length_of self.old) }
        ensures cause { HasCause self.old.starved self.new.starved result }
        ensures told { Unit {0} → Syncs result (state_of self.old) (state_of self.new) }
        ensures recorded { Records Sync result (record_of self.old) (record_of self.new) }
    {
        if self.prepare().is_err() {
            self.starved = self.starved.saturating_add(1);
            return Err(Failed);
        }
        self.calls.push_reserved(Call::Sync);
        Ok(())
    }

    fn restart(&mut self) -> Result<(), Failed>
        ensures cause { HasCause self.old.starved self.new.starved result }
        ensures told { Unit {0} → Restarts result (state_of self.old) (state_of self.new) }
        ensures recorded { RecordsRestart result (record_of self.old) (record_of self.new) }
    {
        if self.prepare().is_err() || self.bring_up().is_err() {
            self.starved = self.starved.saturating_add(1);
            return Err(Failed);
        }
        Ok(())
    }
}
