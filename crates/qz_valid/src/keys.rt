//! Sets of keys, and the keys that fired rows are for.
ghost use Rattle.std.specs.Prelude.{◌≡◌, [], ◌||◌, IfOk, IfSome, IfNone, OnOk, not, false, count_by, if◌then◌else◌};
ghost use Rattle.qz_types.specs.Words.{same_key};
ghost use Rattle.qz_types.specs.declared.keys.Key.{Key as KeyData};
ghost use Rattle.qz_valid.specs.Keys.{has, counts, IsTwice};

use qz_apply::is_acquired;
use qz_tables::Tables;
use qz_types::{FiredRow, Key, NoMemory};
use std::alloc::Global;
use std::collections::BTreeSet;
use std::marker::Model;

/// Which fired rows are counted, and for which of their keys.
#[derive(Clone, Copy)]
pub enum Counted {
    /// The rows of acquired triggers, for the trigger.
    Acquired,
    /// The executions that exclude all others of their job, for the job.
    Exclusive,
}

/// A set of keys of rows. The keys stay in the rows.
#[derive(Drop)]
pub struct KeySet<'a> {
    keys: BTreeSet<&'a Key>,
}

impl<'a> Model for KeySet<'a> {
    ghost use Rattle.std.specs.Prelude.{List, map};
    ghost use Rattle.qz_types.specs.declared.keys.Key.{Key as KeyData};

    ghost Value = { List KeyData };

    ghost view = { λ a. map (λ k. k.now) a.keys.keys };
}

impl<'a> KeySet<'a> {
    /// No keys.
    pub fn new(alloc: Global) -> Self
        ensures { result ≡ [] }
    {
        KeySet {
            keys: BTreeSet::new(alloc),
        }
    }

    /// Whether the key is one of the set.
    pub fn has(&self, key: &'a Key) -> bool
        ensures { result ≡ has key.now self.now }
    {
        self.keys.contains(&key)
    }

    /// Puts in a key, and tells whether it is new.
    pub fn add(&mut self, key: &'a Key) -> Result<bool, NoMemory>
        ensures added { IfOk result (λ added. added ≡ not (has key.now self.old)) }
        ensures keys { OnOk result ((k : KeyData) → has k self.new ≡ (same_key key.now k || has k self.old)) }
    {
        Ok(self.keys.insert(key)?)
    }
}

// The key of the row for which it is counted, if it is counted.
#[tactic(auto, unfolding(crate::specs::Keys::counts, qz_types::specs::States::is_acquired_for, qz_model::specs::Executions::is_exclusive_of))]
fn counted_key(of: Counted, row: &FiredRow) -> Option<&Key>
    ensures some { IfSome result (λ key. (k : KeyData) → counts of k row.now ≡ same_key k key.now) }
    ensures none { IfNone result ((k : KeyData) → counts of k row.now ≡ false) }
{
    match of {
        Counted::Acquired => {
            if is_acquired(row.state) {
                Some(&row.trigger)
            } else {
                None
            }
        }
        Counted::Exclusive => {
            if !is_acquired(row.state) && row.no_concurrent {
                Some(&row.job)
            } else {
                None
            }
        }
    }
}

/// The keys for which fired rows are counted, if each is for one row.
pub fn counted_keys(
    alloc: Global,
    of: Counted,
    tables: &Tables,
) -> Result<Option<KeySet<'_>>, NoMemory>
    ensures once { IfOk result (λ o. IfSome o (λ keys. (k : KeyData) → count_by (counts of k) tables.now.tables.fired ≡ (if has k keys then 1 else 0))) }
    ensures twice { IfOk result (λ o. IfNone o (IsTwice of tables.now.tables.fired)) }
{
    let mut keys = KeySet::new(alloc);
    for place in 0..tables.len_fired() {
        let Some(row) = tables.nth_fired(place) else {
            unreachable!()
        };
        if let Some(key) = counted_key(of, row) {
            if !keys.add(key)? {
                return Ok(None);
            }
        }
    }
    Ok(Some(keys))
}
