//! The follower.
ghost use Rattle.std.specs.Prelude.{◌≡◌, ◌↔◌, ◌<◌, ◌≤◌, ◌++◌, [], ℕ, List as Items, length, take, None, Some, IfOk, IfErr, IsTrue};
ghost use Rattle.qz_model.specs.History.{replay_from};
ghost use Rattle.qz_model.specs.Invariant.{TablesValid};
ghost use Rattle.qz_follow.specs.Following.{IsFollowed, Follows, Keeps, IsEnded};
ghost use Rattle.qz_follow.specs.Kept.{keeps_payloads};
ghost use Rattle.qz_follow.specs.Taking.{Adds};
ghost use Rattle.qz_trigger_store.specs.Kinds.{trigger_kind};
ghost use Rattle.qz_follow.specs.View.{view, tables_of, keeps_of};
ghost use Rattle.qz_stream.specs.declared.place.Place.TheVariants as place;

use crate::holding::Taken;
use crate::{FollowFault, Keeping};
use qz_stream::{Next, Place, Stream};
use qz_tables::Tables;
use qz_types::NoMemory;
use std::alloc::Global;

/// A follower of a trigger store's bytes, which come in any pieces: the tables that the whole payloads so far leave.
#[derive(Drop)]
pub struct Follower {
    pub(crate) stream: Stream,
    pub(crate) taken: Taken,
    // the first fault
    pub(crate) fault: Option<FollowFault>,
}

impl Follower {
    /// A follower to which no byte was fed.
    pub fn new(alloc: Global, keeping: Keeping) -> Result<Follower, NoMemory>
        ensures followed { IfOk result (λ f. IsFollowed [] (view f)) }
        ensures keeps { IfOk result (λ f. keeps_of f ≡ keeps_payloads keeping) }
    {
        Ok(Follower {
            stream: Stream::new(alloc)?,
            taken: Taken::new(alloc, keeping),
            fault: None,
        })
    }

    /// Takes the next bytes, and answers the number of entries that are acknowledged: those of all whole payloads. The bytes
    /// after a gate that isn't open are passed over.
    ///
    /// After a fault each later call answers the same one and does nothing. The entries before it stay.
    pub fn feed(&mut self, piece: &[u8]) -> Result<u64, FollowFault>
        ensures follows { Follows piece.now (view self.old) (view self.new) }
        ensures ok { IfOk result (λ n. ((view self.new).fault ≡ None) × (n ≡ length (view self.new).entries)) }
        ensures err { IfErr result (λ e. (view self.new).fault ≡ Some e) }
        // What was acknowledged stays, and a fault too.
        ensures kept { Keeps (view self.old) (view self.new) }
        ensures sticky { (e : FollowFault) → (view self.old).fault ≡ Some e → view self.new ≡ view self.old }
        ensures keeps { keeps_of self.new ≡ keeps_of self.old }
    {
        let mut used = 0;
        while used < piece.len() && self.fault.is_none() {
            let (_, rest) = piece.split_at(used);
            used += self.read_some(rest);
        }
        match self.fault {
            Some(fault) => Err(fault),
            None => Ok(self.taken.count),
        }
    }

    // Reads bytes up to the end of the next payload, which is taken; else all. It says how many.
    fn read_some(&mut self, bytes: &[u8]) -> usize
        requires some { 1 ≤ length bytes.now }
        requires fine { (view self.old).fault ≡ None }
        ensures some { 1 ≤ result }
        ensures used { result ≤ length bytes.now }
        ensures follows { Follows (take result bytes.now) (view self.old) (view self.new) }
        ensures kept { Keeps (view self.old) (view self.new) }
        ensures keeps { keeps_of self.new ≡ keeps_of self.old }
    {
        match self.stream.next(bytes) {
            Ok(Next::Payload { used }) => {
                self.taken.begin(self.stream.version());
                self.take_payload();
                used
            }
            Ok(Next::More) => {
                self.taken.begin(self.stream.version());
                bytes.len()
            }
            Ok(Next::Ended) => {
                self.taken.begin(self.stream.version());
                bytes.len()
            }
            Err(bad) => {
                self.taken.begin(self.stream.version());
                self.fault = Some(FollowFault::BadStream { at: bad.at });
                bytes.len()
            }
        }
    }

    // Takes the payload that was read last.
    fn take_payload(&mut self)
        requires whole { (view self.old).standing.place ≡ Place.Whole }
        requires fine { (view self.old).fault ≡ None }
        ensures added { Adds trigger_kind (tables_of self.old) (view self.old) (view self.new) }
        ensures kept { Keeps (view self.old) (view self.new) }
        ensures keeps { keeps_of self.new ≡ keeps_of self.old }
    {
        let gate = self.stream.gate();
        let slots = self.stream.slots();
        match self.taken.add(self.stream.payload(), gate, &slots) {
            Ok(()) => {}
            Err(fault) => self.fault = Some(fault),
        }
    }

    /// The tables that the entries leave, from the stream's base on if it has one, or from a new store on. A base that isn't whole is left
    /// out. Before the first five bytes are there and right the tables are those of a new store of version 2.
    pub fn tables(&self) -> &Tables
        ensures kept { result.now.tables ≡ tables_of self.now }
        ensures value { result.now.tables ≡ replay_from (view self.now).start (view self.now).entries }
        ensures valid { ∥ TablesValid result.now.tables ∥₁ }
    {
        self.taken.tables.is_valid();
        self.taken.tables.tables()
    }

    /// The number of entries that are acknowledged.
    pub fn acknowledged(&self) -> u64
        ensures { result ≡ length (view self.now).entries }
    {
        self.taken.count
    }

    /// Whether the stream has ended at a gate that isn't open, with no fault before it.
    pub fn ended(&self) -> bool
        ensures { IsTrue result ↔ IsEnded (view self.now) }
    {
        self.fault.is_none() && self.stream.place() == Place::Ended
    }
}
