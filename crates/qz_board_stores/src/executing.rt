//! How many executions go on.
ghost use Rattle.std.specs.Prelude.{◌≡◌, not};
ghost use Rattle.qz_types.specs.States.{is_acquired};
ghost use Rattle.qz_board_stores.specs.Glances.{executing};

use qz_tables::Tables;
use qz_types::{FiredRow, FiredState};

/// How many executions go on. It goes through the fired rows, of which each node has few.
pub(crate) fn count_executing(tables: &Tables) -> u64
    ensures { result ≡ executing tables.now.tables }
{
    let mut count = 0;
    for place in 0..tables.len_fired() {
        let Some(row) = tables.nth_fired(place) else {
            unreachable!()
        };
        if is_executing(row) {
            count += 1;
        }
    }
    count
}

// Whether the fired row is that of an execution.
fn is_executing(row: &FiredRow) -> bool
    ensures { result ≡ not (is_acquired row.now.state) }
{
    match row.state {
        FiredState::Acquired => false,
        FiredState::Executing => true,
    }
}
