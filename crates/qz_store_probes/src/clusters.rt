//! Both stores together.
ghost use Rattle.std.specs.Prelude.{◌≡◌, ◌⊎◌, ◌≤◌, [], length, true, IsTrue, IfOk, IfErr, OnErr, MatchResult};
ghost use Rattle.qz_checkin.specs.Bytes.{Whole as WholeRows, IsWhole as IsWholeRows};
ghost use Rattle.qz_checkin.specs.Opening.{IsOpened as AreOpened};
ghost use Rattle.qz_checkin.specs.View.{GoesOnFrom as RowsGoOnFrom, IsTold as RowsAreTold};
ghost use Rattle.qz_cluster.specs.Found.{IsFoundIn, AreFoundIn};
ghost use Rattle.qz_cluster.specs.Mounting.{DisksAfter, RefusedBy, StandsBefore, RoseOf, CountsRise};
ghost use Rattle.qz_cluster.specs.Steps.{IsStep, IsCutShort, is_quiet};
ghost use Rattle.qz_cluster.specs.View.{view, triggers_of, states_of, triggers_disk, states_disk, Keeps, KeepsUnanswered, KeepsStores, EachLeavesEither, IsTold};
ghost use Rattle.qz_journal.specs.Through.{OnlyReads};
ghost use Rattle.qz_steps.specs.Steps.{is_step};
ghost use Rattle.qz_trigger_store.specs.Bytes.{Whole, IsWhole};
ghost use Rattle.qz_trigger_store.specs.Opening.{IsOpened};
ghost use Rattle.qz_trigger_store.specs.View.{found_of, added_of, behind_of, keeps_of, keeps_entries, GoesOnFrom};

use qz_cluster::{Cluster, MountError, MountFault, StepEnd};
use qz_disk::Disk;
use qz_steps::{Step, StepReply};
use qz_trigger_store::Keep;
use std::alloc::Global;

/// Opens both stores, as `Cluster::mount` does.
pub fn mount<D: Disk>(
    alloc: Global,
    triggers: D,
    states: D,
    keep: Keep,
) -> Result<Cluster<D>, (MountFault, D, D)>
    ensures opened { IfOk result (λ c. IsOpened (view c).triggers × AreOpened (view c).states) }
    ensures nothing_held { IfOk result (λ c. (view c).held ≡ []) }
    ensures standing { IfOk result (λ c. (view c).standing ≡ true) }
    ensures nothing_added { IfOk result (λ c. added_of (triggers_of c) ≡ []) }
    ensures keeps { IfOk result (λ c. keeps_of (triggers_of c) ≡ keeps_entries keep) }
    ensures behind { IfOk result (λ c. behind_of (triggers_of c) ≡ length (found_of (triggers_of c))) }
    ensures found { D.honest → IfOk result (λ c. IsFoundIn (D.state triggers).content (view c).triggers × AreFoundIn (D.state states).content (view c).states) }
    ensures rows_told { D.honest → IfOk result (λ c. RowsAreTold (states_of c)) }
    ensures reads { D.honest → IfOk result (λ c. OnlyReads (D.state triggers) (triggers_disk c) × OnlyReads (D.state states) (states_disk c)) }
    ensures reads_err { D.honest → IfErr result (λ e. DisksAfter D.Disk e.0.store e.0.error triggers states e.1 e.2) }
    ensures refused { D.honest → IfErr result (λ e. RefusedBy D.Disk e.0.store e.0.error triggers states) }
    ensures first { D.honest → IfErr result (λ e. StandsBefore D.Disk e.0.store triggers) }
    ensures whole { D.honest → (w : Whole) → (v : WholeRows) → IsWhole w (D.state triggers).content → IsWholeRows v (D.state states).content
        → MatchResult result (λ c. GoesOnFrom (triggers_of c) w × RowsGoOnFrom (states_of c) v) (λ e. (e.0.error ≡ MountError.Fault) ⊎ (e.0.error ≡ MountError.NoMemory)) }
    ensures later { IfOk result (λ c. (D.faults triggers ≤ (view c).triggers.faults) × (D.faults states ≤ (view c).states.faults)) }
    ensures fault { IfErr result (λ e. CountsRise D.Disk triggers states e.1 e.2
        × (e.0.error ≡ MountError.Fault → RoseOf D.Disk e.0.store triggers states e.1 e.2)) }
{
    Cluster::mount(alloc, triggers, states, keep)
}

/// Does a step of a script, as `Cluster::step` does.
pub fn step<D: Disk>(cluster: &mut Cluster<D>, step: Step, at: i64) -> Result<StepReply, StepEnd>
    requires { IsTrue (is_step step) }
    ensures ok { IfOk result (λ r. IsStep (IsTold cluster.old) (record { step = step; at = at }) r (view cluster.old) (view cluster.new)) }
    ensures err { IfErr result (λ e. IsCutShort (IsTold cluster.old) (record { step = step; at = at }) e (view cluster.old) (view cluster.new)) }
    ensures keeps { IfOk result (λ r. Keeps step r cluster.old cluster.new) }
    ensures unchanged { OnErr result (KeepsUnanswered step cluster.old cluster.new) }
    ensures quiet { is_quiet step ≡ true → KeepsStores cluster.old cluster.new }
    ensures any_moment { D.honest → EachLeavesEither cluster.old cluster.new }
{
    cluster.step(step, at)
}
