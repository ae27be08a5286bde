//! The items of a document.
ghost use Rattle.std.specs.Prelude.{◌≡◌, ◌⊎◌, Err, IsTrue, IfOk, string_bytes};
ghost use Rattle.std.specs.BTreeMap.{keys};
ghost use Rattle.std.specs.List.{list_all};
ghost use Rattle.serde_json.specs.View.{view};
ghost use Rattle.qz_steps.specs.Steps.{is_step};
ghost use Rattle.qz_job_json.specs.Faults.{ReadsAs};
ghost use Rattle.qz_job_json.specs.Items.{item_of, zone_members};
ghost use Rattle.qz_job_json.specs.Members.{has_only, is_among};

use crate::calendars::calendar_by_kind;
use crate::clients::add_zone;
use crate::faults::{LineError, LineFault};
use crate::objects::job_of;
use crate::schedules::trigger_by_kind;
use qz_steps::Step;
use qz_types::Command;
use serde_json::{Map, Value};
use std::alloc::Global;

/// What an item of a document adds.
#[derive(Clone, Copy, PartialEq, Eq, Debug)]
pub enum Item {
    Zone,
    Calendar,
    Job,
    Trigger,
}

fn map_is_zone(map: &Map<String, Value>) -> bool
    ensures { result ≡ list_all (λ name. is_among zone_members (string_bytes name)) (keys map.now) }
{
    map.keys().all(|name| matches!(name.as_str(), "name" | "stretches" | "rule"))
}

/// Whether each member of the object is one that a zone has.
#[tactic(auto, using(crate::proofs::Names::all_names))]
fn is_zone(value: &Value) -> bool
    ensures { result ≡ has_only zone_members (view value.now) }
{
    match value.as_object() {
        Some(map) => map_is_zone(map),
        None => true,
    }
}

fn zone_item(alloc: Global, value: &Value) -> Result<Command, LineError>
    ensures value { ReadsAs result (item_of Item.Zone (view value.now)) }
    ensures valid { IfOk result (λ command. IsTrue (is_step (Step.Client command))) }
{
    if !is_zone(value) {
        return Err(LineError::Bad(LineFault::Shape));
    }
    add_zone(alloc, value)
}

fn calendar_item(alloc: Global, value: &Value) -> Result<Command, LineError>
    ensures value { ReadsAs result (item_of Item.Calendar (view value.now)) }
    ensures valid { IfOk result (λ command. IsTrue (is_step (Step.Client command))) }
{
    let calendar = calendar_by_kind(alloc, value)?;
    Ok(Command::AddCalendar {
        calendar,
        replace: false,
    })
}

fn job_item(alloc: Global, value: &Value) -> Result<Command, LineError>
    ensures value { ReadsAs result (item_of Item.Job (view value.now)) }
    ensures valid { IfOk result (λ command. IsTrue (is_step (Step.Client command))) }
{
    let job = job_of(alloc, value)?;
    Ok(Command::AddJob {
        job,
        replace: false,
    })
}

fn trigger_item(alloc: Global, value: &Value) -> Result<Command, LineError>
    ensures value { ReadsAs result (item_of Item.Trigger (view value.now)) }
    ensures valid { IfOk result (λ command. IsTrue (is_step (Step.Client command))) }
{
    let spec = trigger_by_kind(alloc, value)?;
    Ok(Command::AddTrigger {
        spec,
        replace: false,
    })
}

/// The command that adds what the object is. It replaces nothing that is stored. The fault of another object is that of
/// the line that would have it: Shape, or a bad cron text where all else is right.
pub fn item_of(alloc: Global, item: Item, value: &Value) -> Result<Command, LineError>
    ensures value { ReadsAs result (item_of item (view value.now)) }
    ensures valid { IfOk result (λ command. IsTrue (is_step (Step.Client command))) }
{
    match item {
        Item::Zone => zone_item(alloc, value),
        Item::Calendar => calendar_item(alloc, value),
        Item::Job => job_item(alloc, value),
        Item::Trigger => trigger_item(alloc, value),
    }
}
