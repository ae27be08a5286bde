//! The lists of a document.
ghost use Rattle.std.specs.Prelude.{◌≡◌, ◌++◌, true, IfOk, OnOk, option_map};
ghost use Rattle.serde_json.specs.View.{view, items_view};
ghost use Rattle.qz_job_json.specs.Items.{item_of};
ghost use Rattle.qz_document.specs.Document.{list_at, list_commands, list_fault, in_text_order};
ghost use Rattle.qz_document.specs.Items.{are_valid, is_shape, earlier, right_of, fault_of, commands_of, fault_in};
ghost use Rattle.qz_document.specs.Order.{names_in_text, triggers_first};

use crate::order::triggers_come_first;
use qz_civil::{List, NoMemory};
use qz_job_json::{Item, LineError, LineFault, item_of};
use qz_types::Command;
use serde_json::Value;
use std::alloc::Global;

/// The items under this name, which are none where there is no such member.
pub(crate) fn list_at<'v>(value: &'v Value, name: &str) -> Option<&'v [Value]>
    ensures { option_map (λ items. items_view items.now) result ≡ list_at name.now (view value.now) }
{
    match value.get(name) {
        Some(member) => Some(member.as_array()?.as_slice()),
        None => Some(&[]),
    }
}

fn is_shape(fault: LineFault) -> bool
    ensures { result ≡ is_shape fault }
{
    matches!(fault, LineFault::Shape)
}

/// Of two faults, of which the second stands behind the first in the text, the one that is answered.
fn earlier(first: Option<LineFault>, second: Option<LineFault>) -> Option<LineFault>
    ensures { result ≡ earlier first second }
{
    let Some(a) = first else {
        return second;
    };
    match second {
        Some(b) if is_shape(b) && !is_shape(a) => second,
        _ => first,
    }
}

/// Puts an item's command last, or answers the item's fault.
fn read_item(
    alloc: Global,
    item: Item,
    value: &Value,
    commands: &mut List<Command>,
) -> Result<Option<LineFault>, NoMemory>
    ensures fault { IfOk result (λ fault. fault ≡ fault_of (item_of item (view value.now))) }
    ensures commands { OnOk result (commands.new ≡ commands.old ++ right_of (item_of item (view value.now))) }
    ensures valid { are_valid commands.old ≡ true → are_valid commands.new ≡ true }
{
    match item_of(alloc, item, value) {
        Ok(command) => {
            commands.push(command)?;
            Ok(None)
        }
        Err(LineError::Bad(fault)) => Ok(Some(fault)),
        Err(LineError::NoMemory) => Err(NoMemory),
    }
}

/// Puts the commands of a list last, and answers the list's fault.
fn read_list(
    alloc: Global,
    item: Item,
    items: &[Value],
    commands: &mut List<Command>,
) -> Result<Option<LineFault>, NoMemory>
    ensures fault { IfOk result (λ fault. fault ≡ fault_in item (items_view items.now)) }
    ensures commands { OnOk result (commands.new ≡ commands.old ++ commands_of item (items_view items.now)) }
    ensures valid { are_valid commands.old ≡ true → are_valid commands.new ≡ true }
{
    let mut fault = None;
    for value in items {
        let found = read_item(alloc, item, value, commands)?;
        fault = earlier(fault, found);
    }
    Ok(fault)
}

/// The fault of the two lists that have cron texts. The text is read again where both have one.
fn in_text_order(
    alloc: Global,
    bytes: &[u8],
    calendars: Option<LineFault>,
    triggers: Option<LineFault>,
) -> Result<Option<LineFault>, NoMemory>
    ensures { IfOk result (λ fault. fault ≡ in_text_order (triggers_first (names_in_text bytes.now)) calendars triggers) }
{
    let Some(_) = calendars else {
        return Ok(triggers);
    };
    let Some(_) = triggers else {
        return Ok(calendars);
    };
    if triggers_come_first(alloc, bytes)? {
        Ok(earlier(triggers, calendars))
    } else {
        Ok(earlier(calendars, triggers))
    }
}

/// Puts the commands of the four lists last, and answers their fault. `bytes` are the document's text.
pub(crate) fn read_lists(
    alloc: Global,
    bytes: &[u8],
    zones: &[Value],
    calendars: &[Value],
    jobs: &[Value],
    triggers: &[Value],
    commands: &mut List<Command>,
) -> Result<Option<LineFault>, NoMemory>
    ensures fault { IfOk result (λ fault. fault ≡ list_fault (triggers_first (names_in_text bytes.now)) (items_view zones.now) (items_view calendars.now) (items_view jobs.now) (items_view triggers.now)) }
    ensures commands { OnOk result (commands.new ≡ commands.old ++ list_commands (items_view zones.now) (items_view calendars.now) (items_view jobs.now) (items_view triggers.now)) }
    ensures valid { are_valid commands.old ≡ true → are_valid commands.new ≡ true }
{
    let of_zones = read_list(alloc, Item::Zone, zones, commands)?;
    let of_calendars = read_list(alloc, Item::Calendar, calendars, commands)?;
    let of_jobs = read_list(alloc, Item::Job, jobs, commands)?;
    let of_triggers = read_list(alloc, Item::Trigger, triggers, commands)?;
    let of_cron = in_text_order(alloc, bytes, of_calendars, of_triggers)?;
    Ok(earlier(earlier(of_zones, of_jobs), of_cron))
}
