//! Payloads that are added together.
ghost use Rattle.std.specs.Prelude.{◌≡◌, ◌<◌, ◌≤◌, ◌++◌, ◌∷◌, ◌+◌, ◌-◌, [], All, length, take, vec_len, vec_capacity, IfOk, OnOk, OnErr, IfErr, IsTrue, ◌↔◌};
ghost use Rattle.std.specs.Int.{w32, to_be_bytes};
ghost use Rattle.qz_journal.specs.Commits.{IsFullFor, room_for};
ghost use Rattle.qz_journal.specs.Layout.{IsPayload, open_gate, blocks};
ghost use Rattle.qz_journal.specs.declared.layout.TheConstants.{FRAME_LENGTH};

use crate::JournalFull;
use crate::layout::{CLOSED_GATE, FRAME_LENGTH, MAX_BYTES, MAX_PAYLOADS, OPEN_GATE};
use qz_civil::{List, NoMemory};
use qz_logs::Log;
use std::alloc::Global;

/// Some payloads that are to be added to a journal together: all of them or none.
#[derive(Drop)]
pub struct Group {
    // for each payload an open gate, its length and its bytes, and then a closed gate
    pub(crate) bytes: Vec<u8>,
    pub(crate) count: u64,
    pub(crate) payloads: Log<List<u8>>,
    ghost commit: { bytes.items ≡ blocks payloads.items ++ 0 ∷ [] },
    ghost sizes: { All IsPayload payloads.items },
    ghost counted: { count ≡ length payloads.items },
}

// Opens the closed gate at the end, and puts the length, the payload and a closed gate after it, in room that is there.
fn put(bytes: &mut Vec<u8>, payload: &[u8])
    requires room { vec_len bytes.old + (5 + length payload.now) ≤ vec_capacity bytes.old }
    requires gate { 1 ≤ vec_len bytes.old }
    requires payload { IsPayload payload.now }
    ensures capacity { vec_capacity bytes.old ≤ vec_capacity bytes.new }
    ensures bytes { bytes.new.items ≡ (((take (vec_len bytes.old - 1) bytes.old.items ++ open_gate ∷ []) ++ to_be_bytes w32 (length payload.now)) ++ payload.now) ++ 0 ∷ [] }
{
    let length = payload.len() as u32;
    // None of these takes memory, so none fails.
    let _ = bytes.pop();
    let _ = bytes.push(OPEN_GATE);
    let _ = bytes.extend_from_slice(&length.to_be_bytes());
    let _ = bytes.extend_from_slice(payload);
    let _ = bytes.push(CLOSED_GATE);
}

impl Group {
    /// No payload.
    pub fn new(alloc: Global) -> Result<Group, NoMemory>
        ensures ok { IfOk result (λ g. g.payloads.items ≡ []) }
    {
        let mut bytes = Vec::new(alloc);
        bytes.push(CLOSED_GATE)?;
        Ok(Group {
            bytes,
            count: 0,
            payloads: Log::new(),
        })
    }

    /// No payload, with memory for so many bytes of blocks and the gate after them.
    pub fn with_capacity(alloc: Global, capacity: usize) -> Result<Group, NoMemory>
        ensures none { IfOk result (λ g. g.payloads.items ≡ []) }
        ensures capacity { IfOk result (λ g. capacity ≤ vec_capacity g.bytes) }
    {
        let mut bytes = Vec::with_capacity(alloc, capacity)?;
        bytes.push(CLOSED_GATE)?;
        Ok(Group {
            bytes,
            count: 0,
            payloads: Log::new(),
        })
    }

    /// Whether there is memory for one payload more.
    pub fn takes(&self, payload: &List<u8>) -> bool
        requires { IsPayload payload.now }
        ensures { IsTrue result ↔ (length (blocks self.now.payloads.items) + 1 + (FRAME_LENGTH + length payload.now) ≤ vec_capacity self.now.bytes) }
    {
        self.bytes.len() + (FRAME_LENGTH + payload.len()) <= self.bytes.capacity()
    }

    /// One payload more, in memory that is there.
    pub fn push_reserved(&mut self, payload: &List<u8>)
        requires payload { IsPayload payload.now }
        requires room { length (blocks self.old.payloads.items) + 1 + (FRAME_LENGTH + length payload.now) ≤ vec_capacity self.old.bytes }
        ensures payloads { self.new.payloads.items ≡ self.old.payloads.items ++ payload.now ∷ [] }
        ensures capacity { vec_capacity self.old.bytes ≤ vec_capacity self.new.bytes }
    {
        let end = self.bytes.len();
        let _ = end;
        put(&mut self.bytes, payload.as_slice());
        self.count += 1;
        self.payloads = Log::and(&self.payloads, payload);
    }

    /// One payload more. After an `Err` they are as they were.
    pub fn push(&mut self, payload: &List<u8>) -> Result<(), NoMemory>
        requires { IsPayload payload.now }
        ensures ok { OnOk result (self.new.payloads.items ≡ self.old.payloads.items ++ payload.now ∷ []) }
        ensures err { OnErr result (self.new.payloads.items ≡ self.old.payloads.items) }
    {
        self.bytes.reserve(FRAME_LENGTH + payload.len())?;
        self.push_reserved(payload);
        Ok(())
    }

    /// How many payloads there are.
    pub fn len(&self) -> u64
        ensures { result ≡ length self.now.payloads.items }
    {
        self.count
    }

    /// How many bytes a journal needs for them after its closed gate.
    pub fn need(&self) -> u64
        ensures { result ≡ length (blocks self.now.payloads.items) }
    {
        (self.bytes.len() - 1) as u64
    }

    /// Whether they have room after the closed gate at this offset, with so many payloads before it.
    pub fn fits(&self, offset: u64, count: u64) -> Result<(), JournalFull>
        ensures full { IfErr result (λ f. IsFullFor self.now.payloads.items offset count f.need f.room) }
        ensures ok { OnOk result (length (blocks self.now.payloads.items) ≤ room_for offset count (length self.now.payloads.items)) }
    {
        let need = self.need();
        let room = if MAX_PAYLOADS.saturating_sub(count) < self.count {
            0
        } else {
            (MAX_BYTES - 1).saturating_sub(offset)
        };
        if need > room {
            return Err(JournalFull { need, room });
        }
        Ok(())
    }

    /// No payload again, in the memory that is there.
    pub fn clear(&mut self)
        ensures none { self.new.payloads.items ≡ [] }
        ensures capacity { vec_capacity self.old.bytes ≤ vec_capacity self.new.bytes }
    {
        self.bytes.clear();
        // There is memory for a byte, where there was one.
        let _ = self.bytes.push(CLOSED_GATE);
        self.count = 0;
        self.payloads = Log::new();
    }

    // What is written after the closed gate: once that gate is open, they are there.
    pub(crate) fn commit(&self) -> &[u8]
        requires { 1 ≤ length self.now.payloads.items }
        ensures { open_gate ∷ result.now ≡ blocks self.now.payloads.items ++ 0 ∷ [] }
    {
        &self.bytes[1..]
    }
}
