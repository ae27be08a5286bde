//! Making both stores of a stream that was read.
ghost use Rattle.std.specs.Prelude.{◌≡◌, ◌⊎◌, ◌≤◌, None, Err};
ghost use Rattle.qz_civil.specs.Causes.{Rose};
ghost use Rattle.qz_follow.specs.View.{view, keeps_of};
ghost use Rattle.qz_standby.specs.Forms.{needs_payloads};
ghost use Rattle.qz_standby.specs.Fronts.{HasNone};
ghost use Rattle.qz_standby.specs.Making.{Makes, TellsHeader};
ghost use Rattle.qz_standby.specs.Parts.{counted};

use crate::fronts::look_at_both;
use crate::rows::make_rows;
use crate::triggers::make_triggers;
use crate::{Form, Unmade};
use qz_disk::Disk;
use qz_follow::Follower;
use std::alloc::Global;

/// The disks of both stores, and whether these were made: the number of entries that the follower acknowledged, or why not.
#[derive(Drop)]
pub struct Standby<D: Disk> {
    pub made: Result<u64, Unmade>,
    pub triggers: D,
    pub states: D,
}

/// Makes a trigger store of this form of what the follower acknowledged, in the version of its stream, and a state store in which
/// each member of the cluster has checked in. Both disks are looked at before the first write, and written only where neither begins
/// as a store does. They come back in every case.
pub fn stand_by<D: Disk>(
    alloc: Global,
    form: Form,
    follower: Follower,
    mut triggers: D,
    mut states: D,
) -> Standby<D>
    requires keeps { keeps_of follower ≡ needs_payloads form }
    requires fine { (view follower).fault ≡ None }
    ensures header { TellsHeader result.made (view follower) }
    ensures makes { D.honest → Makes form result.made (view follower) (D.state triggers) (D.state result.triggers) (D.state states) (D.state result.states) }
    ensures later { (D.faults triggers ≤ D.faults result.triggers) × (D.faults states ≤ D.faults result.states) }
    ensures fault { result.made ≡ Err Unmade.Fault → Rose (D.faults triggers) (D.faults result.triggers) ⊎ Rose (D.faults states) (D.faults result.states) }
{
    match look_at_both(&mut triggers, &mut states) {
        Ok(()) => make_both(alloc, form, follower, triggers, states),
        Err(unmade) => {
            drop(follower);
            Standby {
                made: Err(unmade),
                triggers,
                states,
            }
        }
    }
}

// The same, on disks that begin with no store.
fn make_both<D: Disk>(
    alloc: Global,
    form: Form,
    follower: Follower,
    triggers: D,
    states: D,
) -> Standby<D>
    requires keeps { keeps_of follower ≡ needs_payloads form }
    requires fine { (view follower).fault ≡ None }
    ensures header { TellsHeader result.made (view follower) }
    ensures makes { D.honest → HasNone (D.state triggers).content (D.state states).content
        → Makes form result.made (view follower) (D.state triggers) (D.state result.triggers) (D.state states) (D.state result.states) }
    ensures later { (D.faults triggers ≤ D.faults result.triggers) × (D.faults states ≤ D.faults result.states) }
    ensures fault { result.made ≡ Err Unmade.Fault → Rose (D.faults triggers) (D.faults result.triggers) ⊎ Rose (D.faults states) (D.faults result.states) }
{
    let count = follower.acknowledged();
    match make_triggers(alloc, form, follower, triggers) {
        Ok(store) => {
            let (rows, states) = make_rows(alloc, store.tables(), states);
            Standby {
                made: counted(rows, count),
                triggers: store.into_disk(),
                states,
            }
        }
        Err((unmade, triggers)) => Standby {
            made: Err(unmade),
            triggers,
            states,
        },
    }
}

// The number of entries, where the state store was made too.
fn counted(rows: Result<(), Unmade>, count: u64) -> Result<u64, Unmade>
    ensures value { result ≡ counted rows count }
    ensures fault { result ≡ Err Unmade.Fault → rows ≡ Err Unmade.Fault }
{
    match rows {
        Ok(()) => Ok(count),
        Err(unmade) => Err(unmade),
    }
}
