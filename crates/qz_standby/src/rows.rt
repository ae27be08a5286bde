//! The state store of a standby.
ghost use Rattle.std.specs.Prelude.{◌≡◌, ◌≤◌, IfErr, Err};
ghost use Rattle.qz_civil.specs.Causes.{Rose};
ghost use Rattle.qz_journal.specs.Layout.{HasStore};
ghost use Rattle.qz_journal.specs.declared.layout.TheConstants.{STATES};
ghost use Rattle.qz_model.specs.Invariant.{TablesValid};
ghost use Rattle.qz_standby.specs.CheckIns.{rows_list};
ghost use Rattle.qz_standby.specs.Parts.{IsOfStores, MakesRows, uncreated};

use crate::Unmade;
use crate::checking_in::check_in_members;
use qz_checkin::{NewStoreError, StateStore};
use qz_disk::Disk;
use qz_tables::Tables;
use qz_types::Store;
use std::alloc::Global;

/// Makes a state store in which each member of these tables has checked in, and gives the disk back.
pub(crate) fn make_rows<D: Disk>(
    alloc: Global,
    tables: &Tables,
    states: D,
) -> (Result<(), Unmade>, D)
    requires valid { TablesValid tables.now.tables }
    ensures error { IfErr result.0 IsOfStores }
    ensures makes { D.honest → (HasStore STATES (D.state states).content → ⊥) → MakesRows result.0 (rows_list tables.now.tables) (D.state states) (D.state result.1) }
    ensures later { D.faults states ≤ D.faults result.1 }
    ensures fault { result.0 ≡ Err Unmade.Fault → Rose (D.faults states) (D.faults result.1) }
{
    match StateStore::create(alloc, states) {
        Ok(mut store) => {
            let made = check_in_members(tables, &mut store);
            (made, store.into_disk())
        }
        Err((error, states)) => (Err(uncreated(error, Store::States)), states),
    }
}

/// Why there is no new store on the disk of this one.
pub(crate) fn uncreated(error: NewStoreError, store: Store) -> Unmade
    ensures value { result ≡ uncreated error store }
    ensures kind { IsOfStores result }
    ensures fault { result ≡ Unmade.Fault → error ≡ NewStoreError.Fault }
{
    match error {
        NewStoreError::Exists => Unmade::Exists,
        NewStoreError::OtherKind => Unmade::NotAStore { store },
        NewStoreError::NoMemory => Unmade::NoMemory,
        NewStoreError::Fault => Unmade::Fault,
    }
}
