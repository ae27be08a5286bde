//! Listings of both stores.
ghost use Rattle.std.specs.Prelude.{◌≡◌, IfOk};
ghost use Rattle.qz_listing.specs.Listing.{listed};

use qz_civil::{NoMemory, Text};
use qz_tables::Tables;
use qz_types::StateRow;
use std::alloc::Global;

/// Lists both stores, as `qz_listing::list_lines` does.
pub fn list_lines(alloc: Global, tables: &Tables, states: &[StateRow]) -> Result<Text, NoMemory>
    ensures { IfOk result (λ text. text ≡ listed tables.now.tables states.now) }
{
    qz_listing::list_lines(alloc, tables, states)
}
