//! What a test says of tables, and the tables that it says it of.
use qz_tables::Tables;
use qz_types::NoMemory;
use std::alloc::Global;

/// A case of a test.
pub trait Case {
    /// Whether what the case says of tables that are new is so.
    fn holds(&self, alloc: Global, tables: &mut Tables) -> Result<bool, NoMemory>;
}

/// Whether the case holds of new tables.
pub fn holds_of_new(alloc: Global, case: &impl Case) -> bool {
    let mut tables = Tables::new(alloc, 2);
    let held = case.holds(alloc, &mut tables);
    drop(tables);
    held == Ok(true)
}
