//! The commands: all jobs, and then a trigger for each.
ghost use Rattle.std.specs.Prelude.{◌≡◌, ◌++◌, ◌*◌, ◌+◌, All, IfOk, IsTrue, OnOk, length};
ghost use Rattle.qz_steps.specs.Steps.{is_step};
ghost use Rattle.qz_steps.specs.declared.steps.Step.TheVariants.{Client};
ghost use Rattle.qz_generator.specs.Commands.{first_jobs, first_triggers, generated};

use crate::draws::Draws;
use crate::jobs::make_job;
use crate::triggers::make_trigger;
use qz_types::{Command, List, NoMemory};
use std::alloc::Global;

/// The commands that add so many jobs and then a trigger for each, `j0`, `j1` and so on with `t0`, `t1` and so on. They are the
/// same each time for the same seed, which is any number. Each is a client's and within its limits, and none replaces another.
pub fn make_commands(alloc: Global, seed: u64, jobs: u32) -> Result<List<Command>, NoMemory>
    ensures value { IfOk result (λ commands. commands ≡ generated seed jobs) }
    ensures valid { IfOk result (λ commands. All (λ c. IsTrue (is_step (Client c))) commands) }
    ensures count { IfOk result (λ commands. length commands ≡ 2 * jobs) }
{
    let mut commands = List::new(alloc);
    push_jobs(alloc, &mut commands, seed, jobs)?;
    push_triggers(alloc, &mut commands, seed, jobs)?;
    Ok(commands)
}

fn push_jobs(
    alloc: Global,
    commands: &mut List<Command>,
    seed: u64,
    jobs: u32,
) -> Result<(), NoMemory>
    ensures value { OnOk result (commands.new ≡ commands.old ++ first_jobs jobs seed) }
    ensures valid { All (λ c. IsTrue (is_step (Client c))) commands.old → All (λ c. IsTrue (is_step (Client c))) commands.new }
    ensures count { OnOk result (length commands.new ≡ length commands.old + jobs) }
{
    let mut draws = Draws { state: seed };
    for number in 0..jobs {
        let choice = draws.choice();
        let job = make_job(alloc, number, &choice)?;
        commands.push(Command::AddJob {
            job,
            replace: false,
        })?;
    }
    Ok(())
}

fn push_triggers(
    alloc: Global,
    commands: &mut List<Command>,
    seed: u64,
    jobs: u32,
) -> Result<(), NoMemory>
    ensures value { OnOk result (commands.new ≡ commands.old ++ first_triggers jobs seed) }
    ensures valid { All (λ c. IsTrue (is_step (Client c))) commands.old → All (λ c. IsTrue (is_step (Client c))) commands.new }
    ensures count { OnOk result (length commands.new ≡ length commands.old + jobs) }
{
    let mut draws = Draws { state: seed };
    for number in 0..jobs {
        let choice = draws.choice();
        let spec = make_trigger(alloc, number, &choice)?;
        commands.push(Command::AddTrigger {
            spec,
            replace: false,
        })?;
    }
    Ok(())
}
