//! The numbers of the tables: each is the one that was set, and stays where rows change.
use crate::cases::{Case, holds_of_new};
use crate::triggers::{PUTS, puts_all};
use qz_tables::Tables;
use qz_types::NoMemory;
use std::alloc::Global;
use std::test::*;

fn set_numbers(tables: &mut Tables) {
    tables.set_next_entry(11);
    tables.set_next_epoch(12);
    tables.set_threshold(13);
    tables.set_last_moment(14);
    tables.set_horizon(15);
}

fn numbers_of(tables: &Tables) -> (u64, u64, i64, i64, i64) {
    (
        tables.next_entry(),
        tables.next_epoch(),
        tables.threshold(),
        tables.last_moment(),
        tables.horizon(),
    )
}

/// Numbers are those that were set.
struct Numbers;

impl Case for Numbers {
    fn holds(&self, alloc: Global, tables: &mut Tables) -> Result<bool, NoMemory> {
        set_numbers(tables);
        let put = puts_all(alloc, tables, PUTS)?;
        Ok(put && numbers_of(tables) == (11, 12, 13, 14, 15))
    }
}

#[test]
fn numbers_are_those_that_were_set(rt: HostRuntime) {
    assert!(rt; holds_of_new(rt.alloc(), &Numbers));
}
