//! The trigger store of a stream that was read.
ghost use Rattle.std.specs.Prelude.{◌≡◌, ◌≤◌, None, Some, IfOk, IfErr, OnOk, MatchResult, Err, true};
ghost use Rattle.qz_civil.specs.Causes.{Rose};
ghost use Rattle.qz_follow.specs.View.{view, keeps_of};
ghost use Rattle.qz_journal.specs.Layout.{HasStore};
ghost use Rattle.qz_journal.specs.declared.layout.TheConstants.{TRIGGERS};
ghost use Rattle.qz_model.specs.History.{replay};
ghost use Rattle.qz_follow.specs.Following.{short_at};
ghost use Rattle.qz_standby.specs.Forms.{needs_payloads, left_by};
ghost use Rattle.qz_standby.specs.Making.{TellsHeader};
ghost use Rattle.qz_standby.specs.Parts.{MakesTriggers, unpromoted, uncompacted};
ghost use Rattle.qz_trigger_store.specs.View.{view as store_view, disk_state};

use crate::{Form, Unmade};
use qz_disk::Disk;
use qz_follow::{Follower, PromoteFault};
use qz_stores::CompactError;
use qz_trigger_store::{Keep, TriggerStore};
use qz_types::Store;
use std::alloc::Global;

/// Makes a trigger store of this form of what a follower acknowledged, and opens it. An `Err` hands the disk back.
pub(crate) fn make_triggers<D: Disk>(
    alloc: Global,
    form: Form,
    follower: Follower,
    disk: D,
) -> Result<TriggerStore<D>, (Unmade, D)>
    requires keeps { keeps_of follower ≡ needs_payloads form }
    requires fine { (view follower).fault ≡ None }
    ensures long { OnOk result (short_at (view follower) ≡ None) }
    ensures header { IfErr result (λ e. TellsHeader (Err e.0) (view follower)) }
    ensures tables { IfOk result (λ store. replay (store_view store).history ≡ left_by (view follower).start (view follower).entries) }
    ensures makes { D.honest → (HasStore TRIGGERS (D.state disk).content → ⊥) → MatchResult result
        (λ store. MakesTriggers form None (view follower) (D.state disk) (disk_state store))
        (λ e. MakesTriggers form (Some e.0) (view follower) (D.state disk) (D.state e.1)) }
    ensures later { MatchResult result (λ store. D.faults disk ≤ (store_view store).faults) (λ e. D.faults disk ≤ D.faults e.1) }
    ensures fault { IfErr result (λ e. e.0 ≡ Unmade.Fault → Rose (D.faults disk) (D.faults e.1)) }
{
    match form {
        Form::Entries => promote(follower, disk),
        Form::Snapshot => compact(alloc, follower, disk),
    }
}

// A store of all entries.
fn promote<D: Disk>(follower: Follower, disk: D) -> Result<TriggerStore<D>, (Unmade, D)>
    requires keeps { keeps_of follower ≡ true }
    requires fine { (view follower).fault ≡ None }
    ensures long { OnOk result (short_at (view follower) ≡ None) }
    ensures header { IfErr result (λ e. TellsHeader (Err e.0) (view follower)) }
    ensures tables { IfOk result (λ store. replay (store_view store).history ≡ left_by (view follower).start (view follower).entries) }
    ensures makes { D.honest → (HasStore TRIGGERS (D.state disk).content → ⊥) → MatchResult result
        (λ store. MakesTriggers Form.Entries None (view follower) (D.state disk) (disk_state store))
        (λ e. MakesTriggers Form.Entries (Some e.0) (view follower) (D.state disk) (D.state e.1)) }
    ensures later { MatchResult result (λ store. D.faults disk ≤ (store_view store).faults) (λ e. D.faults disk ≤ D.faults e.1) }
    ensures fault { IfErr result (λ e. e.0 ≡ Unmade.Fault → Rose (D.faults disk) (D.faults e.1)) }
{
    match follower.promote(disk) {
        Ok(store) => Ok(store),
        Err((fault, disk)) => Err((unpromoted(fault), disk)),
    }
}

// A store that begins with a snapshot of the tables.
fn compact<D: Disk>(
    alloc: Global,
    follower: Follower,
    disk: D,
) -> Result<TriggerStore<D>, (Unmade, D)>
    requires fine { (view follower).fault ≡ None }
    ensures long { OnOk result (short_at (view follower) ≡ None) }
    ensures header { IfErr result (λ e. TellsHeader (Err e.0) (view follower)) }
    ensures tables { IfOk result (λ store. replay (store_view store).history ≡ left_by (view follower).start (view follower).entries) }
    ensures makes { D.honest → (HasStore TRIGGERS (D.state disk).content → ⊥) → MatchResult result
        (λ store. MakesTriggers Form.Snapshot None (view follower) (D.state disk) (disk_state store))
        (λ e. MakesTriggers Form.Snapshot (Some e.0) (view follower) (D.state disk) (D.state e.1)) }
    ensures later { MatchResult result (λ store. D.faults disk ≤ (store_view store).faults) (λ e. D.faults disk ≤ D.faults e.1) }
    ensures fault { IfErr result (λ e. e.0 ≡ Unmade.Fault → Rose (D.faults disk) (D.faults e.1)) }
{
    if let Some(at) = follower.short() {
        drop(follower);
        return Err((Unmade::Short { at }, disk));
    }
    let (version, tables) = follower.into_tables();
    match TriggerStore::compacted(alloc, disk, version, tables, Keep::Tables) {
        Ok(store) => Ok(store),
        Err((error, disk)) => Err((uncompacted(error), disk)),
    }
}

// Why no store of all entries was made.
fn unpromoted(fault: PromoteFault) -> Unmade
    ensures value { result ≡ unpromoted fault }
    ensures fault { result ≡ Unmade.Fault → fault ≡ PromoteFault.Fault }
{
    match fault {
        PromoteFault::Short { at } => Unmade::Short { at },
        PromoteFault::Exists => Unmade::Exists,
        PromoteFault::OtherKind => Unmade::NotAStore {
            store: Store::Triggers,
        },
        PromoteFault::NoMemory => Unmade::NoMemory,
        PromoteFault::NoRoom { need, room } => Unmade::NoRoom { need, room },
        PromoteFault::Fault => Unmade::Fault,
    }
}

// Why no store that begins with a snapshot was made.
fn uncompacted(error: CompactError) -> Unmade
    ensures value { result ≡ uncompacted error }
    ensures fault { result ≡ Unmade.Fault → error ≡ CompactError.Fault }
{
    match error {
        CompactError::Exists => Unmade::Exists,
        CompactError::OtherKind => Unmade::NotAStore {
            store: Store::Triggers,
        },
        CompactError::NoMemory => Unmade::NoMemory,
        CompactError::NoRoom { need, room } => Unmade::NoRoom { need, room },
        CompactError::Fault => Unmade::Fault,
    }
}
