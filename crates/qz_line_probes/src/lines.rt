//! Lines of scripts and of `times`, and items of documents.
ghost use Rattle.std.specs.Prelude.{IsTrue, IfOk, IfSome};
ghost use Rattle.serde_json.specs.View.{view};
ghost use Rattle.qz_steps.specs.Steps.{is_step};
ghost use Rattle.qz_job_json.specs.Asked.{asked_meaning, is_asked};
ghost use Rattle.qz_job_json.specs.Faults.{ReadsAs};
ghost use Rattle.qz_job_json.specs.Items as items;
ghost use Rattle.qz_job_json.specs.Lines.{ReadsLineAs, meaning_of};
ghost use Rattle.qz_steps.specs.declared.steps.Step.TheVariants.{Client};

use qz_job_json::{Asked, Given, Item, LineError};
use qz_types::Command;
use serde_json::Value;
use std::alloc::Global;

/// Reads a line of a script, as `qz_job_json::read_step` does.
pub fn read_step(alloc: Global, line: &[u8]) -> Result<Option<Given>, LineError>
    ensures meaning { ReadsLineAs result line.now (meaning_of line.now) }
    ensures valid { IfOk result (λ given. IfSome given (λ g. IsTrue (is_step g.step))) }
{
    qz_job_json::read_step(alloc, line)
}

/// Reads a line of `times`, as `qz_job_json::read_asked` does.
pub fn read_asked(alloc: Global, line: &[u8]) -> Result<Option<Asked>, LineError>
    ensures meaning { ReadsLineAs result line.now (asked_meaning line.now) }
    ensures valid { IfOk result (λ asked. IfSome asked (λ a. IsTrue (is_asked a))) }
{
    qz_job_json::read_asked(alloc, line)
}

/// Reads an item of a document, as `qz_job_json::item_of` does.
pub fn item_of(alloc: Global, item: Item, value: &Value) -> Result<Command, LineError>
    ensures value { ReadsAs result (items.item_of item (view value.now)) }
    ensures valid { IfOk result (λ command. IsTrue (is_step (Client command))) }
{
    qz_job_json::item_of(alloc, item, value)
}
