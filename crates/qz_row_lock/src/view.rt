//! What a seat knows.
use std::collections::LinkedList;

/// What a seat knows of its lock. No value of it is ever made: proofs speak of it alone. So its numbers never wrap, and
/// its lists take no memory.
pub struct View<E, G> {
    /// False of a seat that was joined into another.
    pub live: bool,
    /// The history with which the lock was made.
    pub base: LinkedList<E>,
    /// The basis of the value with which the lock was made.
    pub basis: Option<G>,
    /// The seat's own number.
    pub number: u64,
    /// How many further numbers, those after its own, the seat can hand on.
    pub more: u64,
    /// The seat's share of the lock. All shares add up to 2^32.
    pub parts: u64,
    /// The seat's own number, and the numbers of seats that were joined into it.
    pub ids: LinkedList<u64>,
    /// The history as the seat saw it last.
    pub seen: LinkedList<E>,
    /// The entries of `seen` after `base` that bear one of `ids`.
    pub mine: LinkedList<E>,
    /// Whether the value was shut when the seat saw it last.
    pub shut: bool,
    /// The `ids`, `seen` and `mine` of a seat that was just joined into this one, until this one looks at the lock.
    pub joined_ids: LinkedList<u64>,
    pub joined_seen: LinkedList<E>,
    pub joined_mine: LinkedList<E>,
    /// Whether the seat has drawn a ticket and not yet given back its turn.
    pub queued: bool,
    /// The ticket, counted from the first that was ever drawn.
    pub ticket: u64,
    /// Whether the seat has the turn, and so the value.
    pub turn: bool,
}
