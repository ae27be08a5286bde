//! Commands that a number gives, which are done in turn on a trigger store.
ghost use Rattle.std.specs.Prelude.{◌≡◌, ◌≤◌, OnOk, IfErr, length, true, false};
ghost use Rattle.std.specs.List.{AllByRecursion};
ghost use Rattle.qz_steps.specs.declared.steps.StepReply.{StepReply as Answered};
ghost use Rattle.qz_generator.specs.Commands.{generated};
ghost use Rattle.qz_types.specs.declared.commands.Actor.TheVariants as actor;
ghost use Rattle.qz_checkin.specs.Entries.{StatesState};
ghost use Rattle.qz_cluster.specs.Script.{entry_of};
ghost use Rattle.qz_cluster.specs.Steps.{IsStep};
ghost use Rattle.qz_model.specs.History.{replay};
ghost use Rattle.qz_run_stores.specs.Ways.{KeepsTriggers};
ghost use Rattle.qz_trigger_store.specs.Entries.{is_old};
ghost use Rattle.qz_trigger_store.specs.View.{view, found_of, keeps_of};
ghost use Rattle.qz_trigger_store.specs.declared.stores.TriggerStore.{TriggerStore};
ghost use Rattle.qz_top.specs.Clients.{IsOfClient};
ghost use Rattle.qz_top.specs.Generating.{Filled, FillEnded, FilledPart, StepEnded, beside, first_step, after_answer};
ghost use Rattle.qz_top.specs.NodeRuns.{IsOfNodes};

use crate::Status;
use qz_disk::Disk;
use qz_generator::{FIRST_MOMENT, make_commands};
use qz_trigger_store::TriggerStore;
use qz_types::{Actor, Command, Entry, List, Reply, SubmitError};
use std::alloc::Global;

/// Makes the commands that add so many jobs and a trigger for each, and does them in turn as a client at the first moment.
/// The first that has no answer, or at which the disk fails, ends it with its status.
pub(crate) fn fill<D: Disk>(
    alloc: Global,
    seed: u64,
    jobs: u32,
    triggers: &mut TriggerStore<D>,
) -> Result<(), Status>
    requires { (view triggers.old).is_open ≡ true }
    ensures filled { OnOk result ((u : StatesState) → Filled D.honest (generated seed jobs) (beside u (view triggers.old)) (beside u (view triggers.new))) }
    ensures open { OnOk result ((view triggers.new).is_open ≡ true) }
    ensures ended { IfErr result (λ s. (u : StatesState) → FillEnded D.honest s (generated seed jobs) (beside u (view triggers.old)) (beside u (view triggers.new))) }
    ensures called { IfErr result IsOfNodes }
    ensures found { found_of triggers.new ≡ found_of triggers.old }
    ensures keeps { keeps_of triggers.new ≡ keeps_of triggers.old }
    ensures current { is_old (replay (view triggers.old).history) ≡ false → is_old (replay (view triggers.new).history) ≡ false }
    ensures grows { length (view triggers.old).history.entries ≤ length (view triggers.new).history.entries }
    ensures any_moment { ∥ KeepsTriggers triggers.old triggers.new ∥₁ }
{
    match make_commands(alloc, seed, jobs) {
        Ok(commands) => do_all(commands, triggers),
        Err(_) => Err(Status::NoMemory),
    }
}

// Does the commands in turn.
fn do_all<D: Disk>(commands: List<Command>, triggers: &mut TriggerStore<D>) -> Result<(), Status>
    requires valid { AllByRecursion IsOfClient commands }
    requires open { (view triggers.old).is_open ≡ true }
    ensures filled { OnOk result ((u : StatesState) → Filled D.honest commands (beside u (view triggers.old)) (beside u (view triggers.new))) }
    ensures open { OnOk result ((view triggers.new).is_open ≡ true) }
    ensures ended { IfErr result (λ s. (u : StatesState) → FilledPart D.honest s commands (beside u (view triggers.old)) (beside u (view triggers.new))) }
    ensures called { IfErr result IsOfNodes }
    ensures found { found_of triggers.new ≡ found_of triggers.old }
    ensures keeps { keeps_of triggers.new ≡ keeps_of triggers.old }
    ensures current { is_old (replay (view triggers.old).history) ≡ false → is_old (replay (view triggers.new).history) ≡ false }
    ensures grows { length (view triggers.old).history.entries ≤ length (view triggers.new).history.entries }
    ensures any_moment { ∥ KeepsTriggers triggers.old triggers.new ∥₁ }
{
    for command in commands.into_vec() {
        match do_one(command, triggers) {
            Ok(()) => {}
            Err(status) => return Err(status),
        }
    }
    Ok(())
}

// Does one command as a client at the first moment.
fn do_one<D: Disk>(command: Command, triggers: &mut TriggerStore<D>) -> Result<(), Status>
    requires valid { IsOfClient command }
    requires open { (view triggers.old).is_open ≡ true }
    ensures done { OnOk result ((u : StatesState) → (r : Answered) × IsStep D.honest (first_step command) r (beside u (view triggers.old)) (beside u (view triggers.new))) }
    ensures open { OnOk result ((view triggers.new).is_open ≡ true) }
    ensures ended { IfErr result (λ s. (u : StatesState) → StepEnded D.honest s (first_step command) (beside u (view triggers.old)) (beside u (view triggers.new))) }
    ensures called { IfErr result IsOfNodes }
    ensures found { found_of triggers.new ≡ found_of triggers.old }
    ensures keeps { keeps_of triggers.new ≡ keeps_of triggers.old }
    ensures current { is_old (replay (view triggers.old).history) ≡ false → is_old (replay (view triggers.new).history) ≡ false }
    ensures grows { length (view triggers.old).history.entries ≤ length (view triggers.new).history.entries }
    ensures any_moment { (first : TriggerStore D D.Disk) → length (view first).history.entries ≤ length (view triggers.old).history.entries
        → ∥ KeepsTriggers first triggers.old ∥₁ → ∥ KeepsTriggers first triggers.new ∥₁ }
{
    let answer = triggers.submit(first_entry(command));
    after_answer(answer)
}

// The entry of a client's command at the first moment.
#[tactic(auto, unfolding(qz_types::specs::Entries::is_entry))]
fn first_entry(command: Command) -> Entry
    requires { IsOfClient command }
    ensures { result ≡ entry_of actor.Client command FIRST_MOMENT }
{
    Entry {
        at: FIRST_MOMENT,
        actor: Actor::Client,
        seat: 0,
        command,
    }
}

// Whether the filling goes on after a store's answer, and else its status.
fn after_answer(answer: Result<Reply, SubmitError>) -> Result<(), Status>
    ensures value { result ≡ after_answer answer }
    ensures called { IfErr result IsOfNodes }
{
    match answer {
        Ok(reply) => {
            drop(reply);
            Ok(())
        }
        Err(SubmitError::Refused(_)) => Ok(()),
        Err(SubmitError::JournalFull { need, room }) => Err(Status::JournalFull { need, room }),
        Err(SubmitError::NoMemory) => Err(Status::NoMemory),
        Err(SubmitError::Closed { at: _ } | SubmitError::Fault) => Err(Status::DiskFault),
    }
}
