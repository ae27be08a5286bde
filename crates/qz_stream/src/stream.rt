//! The reader of a stream.
ghost use Rattle.std.specs.Prelude.{◌≡◌, ◌≢◌, ◌↔◌, ◌+◌, ◌<◌, ◌≤◌, ◌++◌, [], length, take, OnOk, IfOk, IsTrue, vec_len, vec_capacity};

use crate::blocks::{MAX_BLOCK, find_block, wanted};
use crate::front::{HEADER_LENGTH, first_bad, slots_in, version_of};
use crate::place::{BadStream, Next, Place};
use qz_journal::Slots;
use std::alloc::{AllocError, Global};
use std::marker::Model;

/// A trigger store's bytes, taken in pieces. Its memory is one block, 32773 bytes, which are taken at the beginning.
#[derive(Drop)]
pub struct Stream {
    version: Option<u8>,
    slots: Slots,
    place: Place,
    gate: u64,
    tail: Vec<u8>,
}

impl Model for Stream {
    ghost use Rattle.std.specs.Prelude.{◌≤◌, vec_capacity};
    ghost use Rattle.qz_stream.specs.Standing.{Standing, IsSoundAt};
    ghost use Rattle.qz_stream.specs.declared.blocks.TheConstants.{MAX_BLOCK};

    ghost Value = { Standing };

    ghost view = { λ a. record { version = a.version; slots = a.slots; place = a.place; gate = a.gate; tail = a.tail.items } };

    ghost invariant = { λ a. IsSoundAt a.place a.gate a.tail.items × (MAX_BLOCK ≤ vec_capacity a.tail) };
}

// Puts bytes at the end, where there is room for them.
fn put(tail: &mut Vec<u8>, bytes: &[u8])
    requires { vec_len tail.old + length bytes.now ≤ vec_capacity tail.old }
    ensures items { tail.new.items ≡ tail.old.items ++ bytes.now }
    ensures len { vec_len tail.new ≡ vec_len tail.old + length bytes.now }
    ensures capacity { vec_capacity tail.old ≤ vec_capacity tail.new }
{
    let _ = tail.extend_from_slice(bytes);
}

impl Stream {
    ghost use Rattle.qz_journal.specs.Layout.{IsPayload};
    ghost use Rattle.qz_stream.specs.Standing.{fresh, payload_of, IsAfter, Feeds, IsReading, Tells, fed_of, header_length_of};

    /// A stream of which no byte was fed.
    pub fn new(alloc: Global) -> Result<Self, AllocError>
        ensures fresh { IfOk result (λ s. s ≡ fresh) }
        ensures after { IfOk result (IsAfter [] []) }
    {
        Ok(Stream {
            version: None,
            slots: Slots { a: None, b: None },
            place: Place::Header,
            gate: 0,
            tail: Vec::with_capacity(alloc, MAX_BLOCK)?,
        })
    }

    /// Where the stream stands.
    pub fn place(&self) -> Place
        ensures { result ≡ self.now.place }
    {
        self.place
    }

    /// The version of the store, once the first five bytes are there and none of them is bad.
    pub fn version(&self) -> Option<u8>
        ensures { result ≡ self.now.version }
    {
        self.version
    }

    /// The slots of the header, once it is whole; before, and where one of its first six bytes is bad, both are closed.
    pub fn slots(&self) -> Slots
        ensures { result ≡ self.now.slots }
    {
        self.slots
    }

    /// The bytes that are there of the header, or of the block at the gate: the gate itself, and what follows it.
    pub fn tail(&self) -> &[u8]
        ensures { result.now ≡ self.now.tail }
    {
        &self.tail
    }

    /// How many bytes of the header are there, where it isn't whole and has no bad byte.
    pub fn header_length(&self) -> Option<usize>
        ensures { result ≡ header_length_of self.now }
    {
        match self.place {
            Place::Header => Some(self.tail.len()),
            _ => None,
        }
    }

    /// The offset of the gate before the payload at hand, whole or not, or of the one that ended the stream; or that of the
    /// bad place. It is 0 while the header isn't whole.
    pub fn gate(&self) -> u64
        ensures { result ≡ self.now.gate }
    {
        self.gate
    }

    /// The payload that was handed out last.
    pub fn payload(&self) -> &[u8]
        requires { self.now.place ≡ Place.Whole }
        ensures bytes { result.now ≡ payload_of self.now.tail }
        ensures size { IsPayload result.now }
    {
        &self.tail[5..]
    }

    /// Reads bytes of a piece up to the end of the next payload, or all of them where no payload is whole in them.
    ///
    /// The bytes after those that were used are fed by the next call. After the end of the stream and after a bad place all
    /// bytes are passed over, and the answer stays the same. No memory is taken.
    pub fn next(&mut self, piece: &[u8]) -> Result<Next, BadStream>
        ensures told { Tells result piece.now self.new }
        ensures fed { Feeds (fed_of result piece.now) self.old self.new }
    {
        self.pass_payload();
        let used = self.read(piece);
        match self.place {
            Place::Header | Place::Block => Ok(Next::More),
            Place::Whole => Ok(Next::Payload { used }),
            Place::Ended => Ok(Next::Ended),
            Place::Bad => Err(BadStream { at: self.gate }),
        }
    }

    // Lets go of a payload that was handed out.
    fn pass_payload(&mut self)
        ensures fed { Feeds [] self.old self.new }
        ensures passed { self.new.place ≢ Place.Whole }
    {
        if self.place == Place::Whole {
            let block: &[u8] = &self.tail;
            self.gate += block.len() as u64;
            self.tail.clear();
            self.place = Place::Block;
        }
    }

    // Reads bytes up to the end of a payload, and says how many; else all.
    fn read(&mut self, piece: &[u8]) -> usize
        requires { self.old.place ≢ Place.Whole }
        ensures used { result ≤ length piece.now }
        ensures all { self.new.place ≢ Place.Whole → result ≡ length piece.now }
        ensures some { self.new.place ≡ Place.Whole → 1 ≤ result }
        ensures fed { Feeds (take result piece.now) self.old self.new }
    {
        let mut used = 0;
        while used < piece.len() && self.place != Place::Whole {
            let (_, rest) = piece.split_at(used);
            used += self.read_some(rest);
        }
        used
    }

    // Reads some of these bytes, and says how many.
    fn read_some(&mut self, bytes: &[u8]) -> usize
        requires some { 1 ≤ length bytes.now }
        requires place { self.old.place ≢ Place.Whole }
        ensures some { 1 ≤ result }
        ensures used { result ≤ length bytes.now }
        ensures fed { Feeds (take result bytes.now) self.old self.new }
    {
        match self.place {
            Place::Header => self.read_header(bytes),
            Place::Block => self.read_block(bytes),
            _ => bytes.len(),
        }
    }

    // Reads bytes of the header.
    fn read_header(&mut self, bytes: &[u8]) -> usize
        requires some { 1 ≤ length bytes.now }
        requires place { self.old.place ≡ Place.Header }
        ensures some { 1 ≤ result }
        ensures used { result ≤ length bytes.now }
        ensures fed { Feeds (take result bytes.now) self.old self.new }
    {
        let used = (HEADER_LENGTH - self.tail.len()).min(bytes.len());
        put(&mut self.tail, &bytes[..used]);
        self.version = version_of(&self.tail);
        if let Some(at) = first_bad(&self.tail) {
            self.gate = at as u64;
            self.place = Place::Bad;
        } else if self.tail.len() == HEADER_LENGTH {
            self.slots = slots_in(&self.tail);
            self.gate = HEADER_LENGTH as u64;
            self.tail.clear();
            self.place = Place::Block;
        }
        used
    }

    // Reads bytes of a block.
    fn read_block(&mut self, bytes: &[u8]) -> usize
        requires some { 1 ≤ length bytes.now }
        requires place { self.old.place ≡ Place.Block }
        ensures some { 1 ≤ result }
        ensures used { result ≤ length bytes.now }
        ensures fed { Feeds (take result bytes.now) self.old self.new }
    {
        let used = wanted(self.gate, &self.tail).min(bytes.len());
        put(&mut self.tail, &bytes[..used]);
        self.place = find_block(self.gate, &self.tail);
        used
    }
}
