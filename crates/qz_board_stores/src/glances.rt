//! Tables at a glance.
ghost use Rattle.std.specs.Prelude.{◌≡◌, option_and_then};
ghost use Rattle.qz_tables.specs.Due.{due_first};
ghost use Rattle.qz_board_stores.specs.Glances.{tables_at_a_glance};

use crate::executing::count_executing;
use qz_board::Glance;
use qz_tables::Tables;

/// These tables at a glance, after so many entries. Takes no memory.
pub(crate) fn glance_of(entries: u64, tables: &Tables) -> Glance
    ensures { result ≡ tables_at_a_glance entries tables.now.tables }
{
    Glance {
        entries,
        jobs: tables.len_jobs() as u64,
        triggers: tables.len_triggers() as u64,
        executing: count_executing(tables),
        last: tables.last_moment(),
        next: next_of(tables),
    }
}

// The next time of the first trigger that waits.
fn next_of(tables: &Tables) -> Option<i64>
    ensures { result ≡ option_and_then (λ t. t.next) (due_first tables.now.tables.triggers) }
{
    match tables.due_first() {
        Some(trigger) => trigger.next,
        None => None,
    }
}
