//! Opening and giving back.
ghost use Rattle.std.specs.Prelude.{◌≡◌, ◌⊎◌, ◌≤◌, [], true, length, IfOk, IfErr, MatchResult};
ghost use Rattle.qz_journal.specs.Through.{OnlyReads};
ghost use Rattle.qz_trigger_store.specs.Bytes.{Whole, IsWhole};
ghost use Rattle.qz_trigger_store.specs.Opening.{IsOpened};
ghost use Rattle.qz_trigger_store.specs.View.{found_of, added_of, behind_of, keeps_of, keeps_entries, GoesOnFrom};
ghost use Rattle.qz_checkin.specs.Bytes.{Whole as WholeRows, IsWhole as IsWholeRows};
ghost use Rattle.qz_checkin.specs.Opening.{IsOpened as AreOpened};
ghost use Rattle.qz_checkin.specs.View.{GoesOnFrom as RowsGoOnFrom, IsTold as RowsAreTold};
ghost use Rattle.qz_cluster.specs.Found.{IsFoundIn, AreFoundIn};
ghost use Rattle.qz_cluster.specs.Mounting.{DisksAfter, RefusedBy, RoseOf, StandsBefore, CountsRise};
ghost use Rattle.qz_cluster.specs.Steps.{is_closed};
ghost use Rattle.qz_cluster.specs.View.{view, triggers_of, states_of, disk_of_triggers, disk_of_states, triggers_disk, states_disk};

use crate::{Cluster, MountError, MountFault};
use qz_checkin::StateStore;
use qz_disk::Disk;
use qz_trigger_store::{Keep, TriggerStore};
use qz_types::Store;
use std::alloc::Global;

impl<D: Disk> Cluster<D> {
    /// Opens both stores, the trigger store first, which is read from its slot in use on. No node holds an epoch yet. The
    /// opening syncs first, and writes nothing. An `Err` hands the disks back and names the store: `NotAStore` is returned where the
    /// header isn't that store's; `Damaged` names the gate of a slot that leads to no snapshot of valid tables, and of a slot
    /// that is open in the state store, or the gate of the first payload that is no record or whose transaction is refused;
    /// and `Fault` is returned only where the disk's count of faults rose. What the trigger store keeps in memory is said by
    /// `keep`.
    pub fn mount(
        alloc: Global,
        triggers: D,
        states: D,
        keep: Keep,
    ) -> Result<Cluster<D>, (MountFault, D, D)>
        ensures opened { IfOk result (λ c. IsOpened (view c).triggers × AreOpened (view c).states) }
        ensures nothing_held { IfOk result (λ c. (view c).held ≡ []) }
        ensures standing { IfOk result (λ c. (view c).standing ≡ true) }
        ensures nothing_added { IfOk result (λ c. added_of (triggers_of c) ≡ []) }
        ensures keeps { IfOk result (λ c. keeps_of (triggers_of c) ≡ keeps_entries keep) }
        ensures behind { IfOk result (λ c. behind_of (triggers_of c) ≡ length (found_of (triggers_of c))) }
        // What was read is an end of what the bytes hold.
        ensures found { D.honest → IfOk result (λ c. IsFoundIn (D.state triggers).content (view c).triggers × AreFoundIn (D.state states).content (view c).states) }
        ensures rows_told { D.honest → IfOk result (λ c. RowsAreTold (states_of c)) }
        ensures reads { D.honest → IfOk result (λ c. OnlyReads (D.state triggers) (triggers_disk c) × OnlyReads (D.state states) (states_disk c)) }
        ensures reads_err { D.honest → IfErr result (λ e. DisksAfter D.Disk e.0.store e.0.error triggers states e.1 e.2) }
        ensures refused { D.honest → IfErr result (λ e. RefusedBy D.Disk e.0.store e.0.error triggers states) }
        ensures first { D.honest → IfErr result (λ e. StandsBefore D.Disk e.0.store triggers) }
        // Where the bytes hold whole lists, both stores are opened and go on from these, or memory or a disk fails.
        ensures whole { D.honest → (w : Whole) → (v : WholeRows) → IsWhole w (D.state triggers).content → IsWholeRows v (D.state states).content
            → MatchResult result (λ c. GoesOnFrom (triggers_of c) w × RowsGoOnFrom (states_of c) v) (λ e. (e.0.error ≡ MountError.Fault) ⊎ (e.0.error ≡ MountError.NoMemory)) }
        // The same of each store by itself.
        ensures goes_on { D.honest → (w : Whole) → IsWhole w (D.state triggers).content → IfOk result (λ c. GoesOnFrom (triggers_of c) w) }
        ensures rows_go_on { D.honest → (v : WholeRows) → IsWholeRows v (D.state states).content → IfOk result (λ c. RowsGoOnFrom (states_of c) v) }
        ensures later { IfOk result (λ c. (D.faults triggers ≤ (view c).triggers.faults) × (D.faults states ≤ (view c).states.faults)) }
        ensures fault { IfErr result (λ e. CountsRise D.Disk triggers states e.1 e.2
            × (e.0.error ≡ MountError.Fault → RoseOf D.Disk e.0.store triggers states e.1 e.2)) }
    {
        match TriggerStore::mount(alloc, triggers, keep) {
            Ok(triggers) => match StateStore::mount(alloc, states) {
                Ok(states) => Ok(Cluster {
                    alloc,
                    triggers,
                    states,
                    held: Vec::new(alloc),
                    standing: true,
                }),
                Err((error, states)) => Err((
                    MountFault {
                        store: Store::States,
                        error,
                    },
                    triggers.into_disk(),
                    states,
                )),
            },
            Err((error, triggers)) => Err((
                MountFault {
                    store: Store::Triggers,
                    error,
                },
                triggers,
                states,
            )),
        }
    }

    /// Whether a store is closed.
    pub fn closed(&self) -> bool
        ensures { result ≡ is_closed (view self.now) }
    {
        self.triggers.closed() || self.states.closed()
    }

    /// Gives the disks back, that of the trigger store first.
    pub fn into_disks(self) -> (D, D)
        ensures { (result.0 ≡ disk_of_triggers self) × (result.1 ≡ disk_of_states self) }
    {
        let Cluster {
            alloc: _,
            triggers,
            states,
            held: _,
            standing: _,
        } = self;
        (triggers.into_disk(), states.into_disk())
    }

    /// Gives the stores back, as they are. The epochs that nodes held are forgotten.
    pub fn into_stores(self) -> (TriggerStore<D>, StateStore<D>)
        ensures { (result.0 ≡ triggers_of self) × (result.1 ≡ states_of self) }
    {
        let Cluster {
            alloc: _,
            triggers,
            states,
            held: _,
            standing: _,
        } = self;
        (triggers, states)
    }
}
