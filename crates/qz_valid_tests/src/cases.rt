//! What edits of valid tables do to that.
use crate::base::BASE;
use crate::edits::{Edit, make};
use crate::{executions, names, stored};
use qz_tables::Tables;
use qz_types::NoMemory;
use qz_valid::are_valid;
use std::alloc::Global;
use std::test::*;

fn make_all(alloc: Global, tables: &mut Tables, edits: &[Edit]) -> Result<(), NoMemory> {
    for edit in edits {
        make(alloc, tables, *edit)?;
    }
    Ok(())
}

// Whether the tables are valid after the edits.
fn decided(alloc: Global, tables: &mut Tables, edits: &[Edit]) -> Result<bool, NoMemory> {
    make_all(alloc, tables, BASE)?;
    make_all(alloc, tables, edits)?;
    are_valid(alloc, tables)
}

fn is_valid_after(alloc: Global, edits: &[Edit]) -> Result<bool, NoMemory> {
    let mut tables = Tables::new(alloc, 2);
    let valid = decided(alloc, &mut tables, edits);
    drop(tables);
    valid
}

#[test]
fn each_point_is_decided(rt: HostRuntime) {
    for cases in [stored::CASES, executions::CASES, names::CASES] {
        for &(what, edits, valid) in cases {
            assert_eq!(rt; is_valid_after(rt.alloc(), edits), Ok(valid), "{what}");
        }
    }
}
