//! What a follower has taken of a stream.
ghost use Rattle.std.specs.Prelude.{◌≡◌, ◌^◌, ◌<◌, ◌≤◌, length, true};
ghost use Rattle.qz_journal.specs.Layout.{is_version};
ghost use Rattle.qz_model.specs.History.{replay_from, IsLegalFrom};
ghost use Rattle.qz_trigger_store.specs.Kinds.{tables_once};
ghost use Rattle.qz_follow.specs.Kept.{KeepsBase, KeepsRecords};

use crate::Stage;
use qz_civil::{List, ListWithRoom};
use qz_logs::Log;
use qz_plain::PlainStore;
use qz_types::Entry;
use std::alloc::Global;
use std::snapshot::Snapshot;

/// What was taken of a stream.
#[derive(Drop)]
pub(crate) struct Taken {
    pub(crate) alloc: Global,
    pub(crate) tables: PlainStore,
    // the version of the format that the stream has, 1 or 2
    pub(crate) version: u8,
    // what the entries begin with, which contracts alone read
    pub(crate) start: Snapshot<PlainStore>,
    pub(crate) stage: Stage,
    // the parts of the base that are there, until it is read
    pub(crate) parts: List<List<u8>>,
    // the tables of the base for a promotion, where records are kept and they aren't those of a new store
    pub(crate) base: Option<PlainStore>,
    // the entries, which contracts alone read, and how many they are
    pub(crate) entries: Log<Entry>,
    pub(crate) count: u64,
    // the offset of the gate after their records, in a store that has these alone
    pub(crate) end: u64,
    // the records as they came, where they are kept
    pub(crate) kept: Option<ListWithRoom<List<u8>>>,
    ghost known: { is_version version ≡ true },
    ghost counted: { count ≡ length entries.items },
    ghost few: { count ≤ 2 ^ 23 },
    ghost low: { end < 2 ^ 29 },
    ghost legal: { ∥ IsLegalFrom start.value.tables entries.items ∥₁ },
    ghost replayed: { tables.tables ≡ replay_from start.value.tables entries.items } by { tables_once tables.tables (replay_from start.value.tables entries.items) },
    ghost based: { ∥ KeepsBase version stage start.value.tables entries.items kept base ∥₁ },
    ghost recorded: { ∥ KeepsRecords end entries.items kept ∥₁ },
}
