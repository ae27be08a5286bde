//! The words of a call, and what `gen` makes.
ghost use Rattle.std.specs.Prelude.{◌≡◌, ◌*◌, All, IfOk, IsTrue, length};
ghost use Rattle.qz_generator.specs.Commands.{generated};
ghost use Rattle.qz_steps.specs.Steps.{is_step};
ghost use Rattle.qz_steps.specs.declared.steps.Step.TheVariants.{Client};
ghost use Rattle.qz_words.specs.Serves as serves;
ghost use Rattle.qz_words.specs.Wishes as wishes;

use qz_types::{Command, List, NoMemory, Text};
use qz_words::{Serving, Wish, WordFault};
use std::alloc::Global;

/// Reads the words of a call, as `qz_words::read_words` does.
pub fn read_words(words: &[Text]) -> Result<Wish, WordFault>
    ensures value { result ≡ wishes.wish_of words.now }
    ensures valid { IfOk result wishes.IsWish }
{
    qz_words::read_words(words)
}

/// Reads the words of `serve`, as `qz_words::read_serve` does.
pub fn read_serve(words: &[Text]) -> Result<Serving, WordFault>
    ensures value { result ≡ serves.serving_of words.now }
    ensures valid { IfOk result serves.IsServing }
{
    qz_words::read_serve(words)
}

/// Makes the commands of `gen`, as `qz_generator::make_commands` does.
pub fn make_commands(alloc: Global, seed: u64, jobs: u32) -> Result<List<Command>, NoMemory>
    ensures value { IfOk result (λ commands. commands ≡ generated seed jobs) }
    ensures valid { IfOk result (λ commands. All (λ c. IsTrue (is_step (Client c))) commands) }
    ensures count { IfOk result (λ commands. length commands ≡ 2 * jobs) }
{
    qz_generator::make_commands(alloc, seed, jobs)
}
