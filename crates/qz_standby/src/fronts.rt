//! What both disks begin with.
ghost use Rattle.std.specs.Prelude.{◌≡◌, ◌≢◌, ◌⊎◌, ◌≤◌, IfErr, Err};
ghost use Rattle.qz_civil.specs.Causes.{Rose};
ghost use Rattle.qz_standby.specs.Fronts.{Looks};
ghost use Rattle.qz_standby.specs.Parts.{AreFound, IsOfStores, of_fronts};

use crate::Unmade;
use qz_disk::Disk;
use qz_journal::{Front, STATES, TRIGGERS, look};
use qz_types::Store;

/// Looks at both disks, and answers why no stores are made on them if one begins as a store does.
pub(crate) fn look_at_both<D: Disk>(triggers: &mut D, states: &mut D) -> Result<(), Unmade>
    ensures error { IfErr result IsOfStores }
    ensures found { D.honest → AreFound result (D.state triggers.old).content (D.state states.old).content }
    ensures triggers { D.honest → Looks (D.state triggers.old) (D.state triggers.new) }
    ensures states { D.honest → Looks (D.state states.old) (D.state states.new) }
    ensures later { (D.faults triggers.old ≤ D.faults triggers.new) × (D.faults states.old ≤ D.faults states.new) }
    ensures fault { result ≡ Err Unmade.Fault → Rose (D.faults triggers.old) (D.faults triggers.new) ⊎ Rose (D.faults states.old) (D.faults states.new) }
{
    let Ok(first) = look(triggers, TRIGGERS) else {
        return Err(Unmade::Fault);
    };
    let Ok(second) = look(states, STATES) else {
        return Err(Unmade::Fault);
    };
    of_fronts(first, second)
}

// Why no stores are made on disks that begin so.
fn of_fronts(triggers: Front, states: Front) -> Result<(), Unmade>
    ensures value { result ≡ of_fronts triggers states }
    ensures error { IfErr result IsOfStores }
    ensures fault { result ≢ Err Unmade.Fault }
{
    match (triggers, states) {
        (Front::This, _) => Err(Unmade::Exists),
        (_, Front::This) => Err(Unmade::Exists),
        (Front::Other, _) => Err(Unmade::NotAStore {
            store: Store::Triggers,
        }),
        (Front::Neither, Front::Other) => Err(Unmade::NotAStore {
            store: Store::States,
        }),
        (Front::Neither, Front::Neither) => Ok(()),
    }
}
