//! The whole invariant.
ghost use Rattle.std.specs.Prelude.{◌≡◌, ◌↔◌, IfOk, IsTrue};
ghost use Rattle.qz_model.specs.Invariant.{TablesValid};
ghost use Rattle.qz_valid.specs.Whole.{rows_fit};

use crate::calendars::calendars_fit;
use crate::fired::all_fired_fit;
use crate::keys::{Counted, KeySet, counted_keys};
use crate::limits::are_within_limits;
use crate::members::members_fit;
use crate::names::are_apart;
use crate::order::are_ordered;
use crate::triggers::triggers_fit;
use qz_tables::Tables;
use qz_types::NoMemory;
use std::alloc::Global;

#[tactic(auto, unfolding(crate::specs::Whole::rows_fit))]
fn rows_fit<'a>(tables: &'a Tables, acquired: &KeySet<'a>, exclusive: &KeySet<'a>) -> bool
    ensures { result ≡ rows_fit tables.now.tables acquired.now exclusive.now }
{
    calendars_fit(tables)
        && members_fit(tables)
        && all_fired_fit(tables, exclusive)
        && triggers_fit(tables, acquired, exclusive)
}

/// Whether the tables are valid: whether they have each point of the invariant that transactions keep.
///
/// It takes memory for a place in a set for each acquired trigger, each exclusive execution and each trigger that the
/// scheduler added. Want of it is the one error. With n rows it takes n log n steps, and for members 256 more each.
pub fn are_valid(alloc: Global, tables: &Tables) -> Result<bool, NoMemory>
    ensures { IfOk result (λ valid. IsTrue valid ↔ TablesValid tables.now.tables) }
{
    are_ordered(alloc, tables);
    if !are_within_limits(tables) {
        return Ok(false);
    }
    let Some(acquired) = counted_keys(alloc, Counted::Acquired, tables)? else {
        return Ok(false);
    };
    let Some(exclusive) = counted_keys(alloc, Counted::Exclusive, tables)? else {
        return Ok(false);
    };
    if !rows_fit(tables, &acquired, &exclusive) {
        return Ok(false);
    }
    are_apart(alloc, tables)
}
