//! Reading a document.
ghost use Rattle.std.specs.Prelude.{◌≡◌, ◌⊎◌, ◌∷◌, [], true, Err, IsTrue, IfOk, IfSome, OnOk, string_bytes};
ghost use Rattle.std.specs.BTreeMap.{keys};
ghost use Rattle.std.specs.List.{list_all};
ghost use Rattle.serde_json.specs.View.{view};
ghost use Rattle.qz_types.specs.Rows.{is_interval};
ghost use Rattle.qz_job_json.specs.Faults.{ReadsAs};
ghost use Rattle.qz_job_json.specs.Members.{has_only, is_among};
ghost use Rattle.qz_document.specs.Document as spec;
ghost use Rattle.qz_document.specs.Items.{are_valid};
ghost use Rattle.qz_document.specs.Order.{names_in_text, triggers_first};

use crate::lists::{list_at, read_lists};
use qz_civil::{List, NoMemory};
use qz_input::DOCUMENT_LIMIT;
use qz_job_json::{LineError, LineFault, integer_in, optional_integer_at, value_of};
use qz_types::{Command, INTERVAL_LIMIT};
use serde_json::{Map, Value};
use std::alloc::Global;

/// What a document asks for.
#[derive(Drop)]
pub struct Document {
    /// The reading for each of its commands in place of one of the clock, in ms since 1970-01-01T00:00:00Z. Any number.
    pub at: Option<i64>,
    /// The threshold, then the zones, calendars, jobs and triggers. None of them replaces anything.
    pub commands: List<Command>,
}

fn is_member(name: &str) -> bool
    ensures { result ≡ is_among spec.document_members name.now }
{
    matches!(
        name,
        "at" | "threshold" | "zones" | "calendars" | "jobs" | "triggers"
    )
}

fn map_is_document(map: &Map<String, Value>) -> bool
    ensures { result ≡ list_all (λ name. is_among spec.document_members (string_bytes name)) (keys map.now) }
{
    map.keys().all(|name| is_member(name.as_str()))
}

/// Whether the value is an object that has no other member than a document.
#[tactic(auto, using(qz_job_json::proofs::Names::all_names))]
fn is_document(value: &Value) -> bool
    ensures { result ≡ spec.is_document (view value.now) }
{
    match value.as_object() {
        Some(map) => map_is_document(map),
        None => false,
    }
}

/// The document's own reading, if it has one. None is no document.
fn at_of(value: &Value) -> Option<Option<i64>>
    ensures { result ≡ spec.at_of (view value.now) }
{
    if is_document(value) {
        optional_integer_at(value, "at")
    } else {
        None
    }
}

/// The threshold in ms, if there is one. None is one that is no such number.
fn threshold_of(value: &Value) -> Option<Option<i64>>
    ensures value { result ≡ spec.threshold_of (view value.now) }
    ensures valid { IfSome result (λ threshold. IfSome threshold (λ ms. IsTrue (is_interval ms))) }
{
    match value.get("threshold") {
        Some(member) => integer_in(member, 1, INTERVAL_LIMIT).map(Some),
        None => Some(None),
    }
}

/// The command of a threshold, if there is one.
fn with_threshold(alloc: Global, threshold: Option<i64>) -> Result<List<Command>, NoMemory>
    requires { IfSome threshold (λ ms. IsTrue (is_interval ms)) }
    ensures value { IfOk result (λ commands. commands ≡ spec.threshold_commands threshold) }
    ensures valid { IfOk result (λ commands. are_valid commands ≡ true) }
{
    let mut commands = List::new(alloc);
    if let Some(ms) = threshold {
        commands.push(Command::Threshold { ms })?;
    }
    Ok(commands)
}

/// What a document says whose JSON value this is, and whose text these bytes are.
#[tactic(auto, unfolding(crate::specs::Document::said_by_value))]
fn read_value(alloc: Global, bytes: &[u8], value: &Value) -> Result<Document, LineError>
    ensures meaning { spec.ReadsValueAs result (spec.said_by_value (triggers_first (names_in_text bytes.now)) (view value.now)) }
    ensures valid { IfOk result (λ document. are_valid document.commands ≡ true) }
{
    let at = at_of(value).ok_or(LineFault::Shape)?;
    let threshold = threshold_of(value).ok_or(LineFault::Shape)?;
    let zones = list_at(value, "zones").ok_or(LineFault::Shape)?;
    let calendars = list_at(value, "calendars").ok_or(LineFault::Shape)?;
    let jobs = list_at(value, "jobs").ok_or(LineFault::Shape)?;
    let triggers = list_at(value, "triggers").ok_or(LineFault::Shape)?;
    let mut commands = with_threshold(alloc, threshold)?;
    match read_lists(
        alloc,
        bytes,
        zones,
        calendars,
        jobs,
        triggers,
        &mut commands,
    )? {
        None => Ok(Document { at, commands }),
        Some(fault) => Err(LineError::Bad(fault)),
    }
}

/// Reads a document: one JSON object. The faults are those of a line, tried in the order `TooLong`, `NotJson`, `Shape`,
/// `Cron`; of several bad cron texts the first in the text is the answer. `TooLong` has more than `DOCUMENT_LIMIT` bytes.
pub fn read_document(alloc: Global, bytes: &[u8]) -> Result<Document, LineError>
    ensures meaning { spec.ReadsDocumentAs result bytes.now }
    ensures valid { IfOk result (λ document. are_valid document.commands ≡ true) }
{
    if bytes.len() > DOCUMENT_LIMIT {
        return Err(LineError::Bad(LineFault::TooLong));
    }
    let value = value_of(alloc, bytes)?;
    read_value(alloc, bytes, &value)
}
