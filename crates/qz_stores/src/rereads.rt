//! A history that was read from a disk.
ghost use Rattle.std.specs.Prelude.{◌≡◌, ◌+◌, length};

use crate::Kind;
use qz_logs::Log;
use std::snapshot::Snapshot;

/// A history that was read from a disk, and the state that it leaves.
#[derive(Drop)]
pub struct Reread<K: Kind> {
    // the version of the format that the store has
    pub(crate) version: u8,
    // how many entries came before those that were read, and the state that they left
    pub(crate) base_count: u64,
    pub(crate) base: Snapshot<K>,
    pub(crate) entries: Log<K::Entry>,
    // how many there are in all
    pub(crate) count: u64,
    pub(crate) state: K,
    ghost counted: { count ≡ base_count + length entries.items },
    ghost replayed: { K.state state ≡ K.kind.replay_from (K.state base.value) entries.items } by { K.kind.states_once (K.state state) (K.kind.replay_from (K.state base.value) entries.items) },
}
