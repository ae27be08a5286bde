//! The first entries of a new state store: each member of the cluster has checked in.
ghost use Rattle.std.specs.Prelude.{◌≡◌, ◌≢◌, ◌⊎◌, ◌≤◌, [], None, OnOk, IfErr, Err, true};
ghost use Rattle.qz_civil.specs.Causes.{Rose};
ghost use Rattle.qz_checkin.specs.Bytes.{list_of};
ghost use Rattle.qz_checkin.specs.History.{new_state_history};
ghost use Rattle.qz_checkin.specs.Kinds.{state_kind};
ghost use Rattle.qz_checkin.specs.View.{view, disk_state, GoesOnFrom};
ghost use Rattle.qz_disk.specs.Disk.{LeavesOnly};
ghost use Rattle.qz_model.specs.Invariant.{TablesValid};
ghost use Rattle.qz_standby.specs.CheckIns.{check_ins, rows_list};
ghost use Rattle.qz_standby.specs.Making.{HoldsFirst};
ghost use Rattle.qz_standby.specs.Parts.{IsInPart};

use crate::Unmade;
use qz_checkin::StateStore;
use qz_disk::Disk;
use qz_tables::Tables;
use qz_types::SubmitError;

/// How often a member means to check in, in ms, until its node checks in itself.
pub const CHECK_IN_INTERVAL: i64 = 15000;

/// Checks in each member of the tables on a new store, in the order of the names, at the moment of their last transaction.
pub(crate) fn check_in_members<D: Disk>(
    tables: &Tables,
    states: &mut StateStore<D>,
) -> Result<(), Unmade>
    requires valid { TablesValid tables.now.tables }
    requires new { (view states.old).history ≡ new_state_history }
    requires place { ((view states.old).gate ≡ 16) × ((view states.old).payloads ≡ 0) }
    requires open { (view states.old).is_open ≡ true }
    requires decided { (view states.old).undecided ≡ None }
    ensures history { OnOk result (((view states.new).history ≡ record new_state_history { entries = check_ins tables.now.tables }) × ((view states.new).undecided ≡ None)) }
    ensures any_moment { D.honest → GoesOnFrom states.old (list_of 2 []) → GoesOnFrom states.new (list_of 2 [])
        × LeavesOnly (disk_state states.old) (disk_state states.new) (HoldsFirst state_kind (rows_list tables.now.tables)) }
    ensures unmade { IfErr result IsInPart }
    ensures later { (view states.old).faults ≤ (view states.new).faults }
    ensures fault { result ≡ Err Unmade.Fault → Rose (view states.old).faults (view states.new).faults }
{
    let at = tables.last_moment();
    for place in 0..tables.len_members() {
        let Some(member) = tables.nth_member(place) else {
            unreachable!()
        };
        match states.check_in(at, 0, &member.node, CHECK_IN_INTERVAL) {
            Ok(()) => {}
            Err(SubmitError::NoMemory) => return Err(Unmade::NoMemory),
            Err(SubmitError::Fault) => return Err(Unmade::Fault),
            Err(SubmitError::Closed { at: _ }) => unreachable!(),
            Err(SubmitError::Refused(_)) => unreachable!(),
            Err(SubmitError::JournalFull { need: _, room: _ }) => unreachable!(),
        }
    }
    Ok(())
}
