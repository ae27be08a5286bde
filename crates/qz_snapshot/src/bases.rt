//! The tables that the entries of a store begin with, where a slot is in use.
ghost use Rattle.std.specs.Prelude.{◌≡◌, ℕ, map, IfOk, IfSome, IfNone};
ghost use Rattle.qz_types.specs.Tables.{SchedulerTables};
ghost use Rattle.qz_model.specs.Invariant.{TablesValid};
ghost use Rattle.qz_snapshot.specs.Opening.{BeginWell};

use crate::filling::fill;
use crate::order::are_ordered;
use crate::parts::{Parts, read_parts};
use qz_civil::List;
use qz_tables::Tables;
use qz_types::NoMemory;
use qz_valid::are_valid;
use std::alloc::Global;

// The tables of these rows and numbers, or None where they aren't valid.
fn valid_tables(alloc: Global, parts: Parts) -> Result<Option<Tables>, NoMemory>
    ensures found { IfOk result (λ o. IfSome o (λ tables. (tables.tables ≡ parts) × TablesValid parts)) }
    ensures none { IfOk result (λ o. IfNone o (TablesValid parts → ⊥)) }
{
    if !are_ordered(&parts) {
        drop(parts);
        return Ok(None);
    }
    let tables = fill(alloc, parts)?;
    kept_if_valid(alloc, tables)
}

// These tables, or None where they aren't valid.
fn kept_if_valid(alloc: Global, tables: Tables) -> Result<Option<Tables>, NoMemory>
    ensures found { IfOk result (λ o. IfSome o (λ kept. (kept.tables ≡ tables.tables) × TablesValid tables.tables)) }
    ensures none { IfOk result (λ o. IfNone o (TablesValid tables.tables → ⊥)) }
{
    match are_valid(alloc, &tables) {
        Ok(true) => Ok(Some(tables)),
        Ok(false) => {
            drop(tables);
            Ok(None)
        }
        Err(error) => {
            drop(tables);
            Err(error)
        }
    }
}

// The bytes of each payload.
fn slices_of(alloc: Global, payloads: &[List<u8>]) -> Result<Vec<&[u8]>, NoMemory>
    ensures { IfOk result (λ slices. map (λ p. p.now) slices.items ≡ payloads.now) }
{
    let mut slices = Vec::with_capacity(alloc, payloads.len())?;
    for payload in payloads {
        slices.push(payload.as_slice())?;
    }
    Ok(slices)
}

// The same as `read_base` does, of slices.
fn read_slices(alloc: Global, payloads: &[&[u8]]) -> Result<Option<(Tables, u32)>, NoMemory>
    ensures found { IfOk result (λ o. IfSome o (λ base. BeginWell (map (λ p. p.now) payloads.now) base.0.tables base.1)) }
    ensures none { IfOk result (λ o. IfNone o ((T : SchedulerTables) (entries : ℕ) → BeginWell (map (λ p. p.now) payloads.now) T entries → ⊥)) }
{
    let Some((head, parts)) = read_parts(alloc, payloads)? else {
        return Ok(None);
    };
    if head.payloads < head.entries {
        return Ok(None);
    }
    match valid_tables(alloc, parts)? {
        Some(tables) => Ok(Some((tables, head.entries))),
        None => Ok(None),
    }
}

/// The tables of the snapshot that these payloads begin with, and how many entries came before it, or None where they begin
/// with none that an opening takes: it doesn't read, it says that more entries than payloads come before it, or its tables
/// aren't valid.
pub fn read_base(
    alloc: Global,
    payloads: &List<List<u8>>,
) -> Result<Option<(Tables, u32)>, NoMemory>
    ensures found { IfOk result (λ o. IfSome o (λ base. BeginWell payloads.now base.0.tables base.1)) }
    ensures none { IfOk result (λ o. IfNone o ((T : SchedulerTables) (entries : ℕ) → BeginWell payloads.now T entries → ⊥)) }
{
    let slices = slices_of(alloc, payloads.as_slice())?;
    read_slices(alloc, &slices)
}
