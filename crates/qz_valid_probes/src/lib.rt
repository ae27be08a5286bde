//! The decision whether tables are valid, once more: edits of it show which wrong answers its contract refuses.
#![tactic(auto)]

ghost use Rattle.std.specs.Prelude.{◌↔◌, IfOk, IsTrue};
ghost use Rattle.qz_model.specs.Invariant.{TablesValid};

use qz_tables::Tables;
use qz_types::NoMemory;
use std::alloc::Global;

/// [`qz_valid::are_valid`].
pub fn are_valid(alloc: Global, tables: &Tables) -> Result<bool, NoMemory>
    ensures { IfOk result (λ valid. IsTrue valid ↔ TablesValid tables.now.tables) }
{
    qz_valid::are_valid(alloc, tables)
}
