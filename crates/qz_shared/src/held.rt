//! What lies under a lock row.
ghost use Rattle.std.specs.Prelude.{◌≡◌, ◌<◌, ◌^◌, length};
ghost use Rattle.qz_shared.specs.Since.{IsSince};
ghost use Rattle.qz_shared.specs.Once.{IsSince-prop};

use crate::RowStore;
use std::snapshot::Snapshot;

/// A store under its lock row, and its ground: what it was when it was put there, which takes no memory.
#[derive(Drop)]
pub struct Held<S: RowStore> {
    pub(crate) store: S,
    pub(crate) opened: Snapshot<S>,
    ghost since: { IsSince S.kind S.listed (S.state opened.value) (S.state store) } by { IsSince-prop S.kind S.listed S.histories_once (S.state opened.value) (S.state store) },
    ghost went: { ∥ S.Went opened.value store ∥₁ },
    // so that the lock can count the entries
    ghost short: { length (S.listed (S.state opened.value).history) < 2 ^ 62 },
}
