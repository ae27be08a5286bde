//! The order of the rows.
ghost use Rattle.qz_model.specs.Invariant.{AreOrdered};

use qz_tables::Tables;
use qz_types::{Key, Text};
use std::alloc::Global;

/// The rows of each kind are in the order of their ids. It looks up one id of each kind, since a look-up tells that.
pub fn are_ordered(alloc: Global, tables: &Tables)
    ensures { AreOrdered tables.now.tables }
{
    let text = Text::new(alloc);
    let key = Key {
        group: Text::new(alloc),
        name: Text::new(alloc),
    };
    tables.get_job(&key);
    tables.get_trigger(&key);
    tables.get_calendar(&text);
    tables.get_zone(&text);
    tables.get_group(&text);
    tables.get_job_group(&text);
    tables.get_member(&text);
    tables.get_fired(0);
}
