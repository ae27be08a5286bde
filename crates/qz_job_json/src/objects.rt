//! The keys and the jobs in lines.
ghost use Rattle.std.specs.Prelude.{◌≡◌, ◌⊎◌, Err, IsTrue, IfOk, IfSome, option_map};
ghost use Rattle.serde_json.specs.View.{view};
ghost use Rattle.qz_types.specs.Rows.{is_key};
ghost use Rattle.qz_job_json.specs.Faults.{ReadsAs};
ghost use Rattle.qz_job_json.specs.Objects.{make_key, key_at, is_payload, payload_at, job_by_members, job_of};

use crate::faults::{LineError, LineFault};
use crate::forms::Form;
use crate::members::{flag_at, group_at, has_only, name_at};
use qz_civil::beside;
use qz_types::{JobRow, Key, PAYLOAD_LIMIT, Text};
use serde_json::Value;
use std::alloc::{AllocError, Global};

/// The group and the name of the key that the members under these names are.
#[tactic(auto, unfolding(crate::specs::Objects::key_at))]
pub(crate) fn names_at<'v>(value: &'v Value, group: &str, name: &str) -> Option<(&'v str, &'v str)>
    ensures value { option_map (λ x. make_key x.0.now x.1.now) result ≡ key_at group.now name.now (view value.now) }
    ensures valid { IfSome result (λ x. IsTrue (is_key (make_key x.0.now x.1.now))) }
{
    let group = group_at(value, group)?;
    let name = name_at(value, name)?;
    Some((group, name))
}

/// Memory for the keys of a trigger and of its job.
pub(crate) fn make_keys(
    alloc: Global,
    key: (&str, &str),
    job: (&str, &str),
) -> Result<(Key, Key), AllocError>
    ensures key { IfOk result (λ made. made.0 ≡ make_key key.entry.0.now key.entry.1.now) }
    ensures job { IfOk result (λ made. made.1 ≡ make_key job.entry.0.now job.entry.1.now) }
{
    let key = Key::new(alloc, key.0, key.1)?;
    beside(key, Key::new(alloc, job.0, job.1))
}

/// Memory for two texts.
pub(crate) fn make_both(
    alloc: Global,
    first: &str,
    second: &str,
) -> Result<(Text, Text), AllocError>
    ensures first { IfOk result (λ made. made.0 ≡ first.now) }
    ensures second { IfOk result (λ made. made.1 ≡ second.now) }
{
    let first = Text::from_str(alloc, first)?;
    beside(first, Text::from_str(alloc, second))
}

/// The payload of a job, empty where there is no such member.
fn payload_at(value: &Value) -> Option<&str>
    ensures value { option_map (λ text. text.now) result ≡ payload_at (view value.now) }
    ensures valid { IfSome result (λ text. IsTrue (is_payload text.now)) }
{
    match value.get("data") {
        Some(member) => {
            let text = member.as_str()?;
            if text.len() as u64 <= PAYLOAD_LIMIT {
                Some(text)
            } else {
                None
            }
        }
        None => Some(""),
    }
}

/// A job by its members.
#[tactic(auto, unfolding(crate::specs::Objects::job_by_members))]
fn job_by_members(alloc: Global, value: &Value) -> Result<JobRow, LineError>
    ensures { ReadsAs result (job_by_members (view value.now)) }
{
    let (group, name) = names_at(value, "group", "name").ok_or(LineFault::Shape)?;
    let class = name_at(value, "class").ok_or(LineFault::Shape)?;
    let durable = flag_at(value, "durable").ok_or(LineFault::Shape)?;
    let no_concurrent = flag_at(value, "no_concurrent").ok_or(LineFault::Shape)?;
    let requests_recovery = flag_at(value, "requests_recovery").ok_or(LineFault::Shape)?;
    let payload = payload_at(value).ok_or(LineFault::Shape)?;
    let key = Key::new(alloc, group, name)?;
    let (key, (class, payload)) = beside(key, make_both(alloc, class, payload))?;
    Ok(JobRow {
        key,
        class,
        durable,
        no_concurrent,
        requests_recovery,
        payload,
    })
}

/// The job that the object is.
pub(crate) fn job_of(alloc: Global, value: &Value) -> Result<JobRow, LineError>
    ensures { ReadsAs result (job_of (view value.now)) }
{
    if !has_only(value, Form::Job) {
        return Err(LineError::Bad(LineFault::Shape));
    }
    job_by_members(alloc, value)
}
