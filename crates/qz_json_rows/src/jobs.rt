//! Keys and jobs.
ghost use Rattle.std.specs.Prelude.{◌≡◌, ◌++◌, OnOk};
ghost use Rattle.qz_json_rows.specs.Jobs as spec;

use crate::json::push_text;
use crate::members::{more, more_set, push_label, unusual_text};
use qz_types::{JobRow, Key};
use std::alloc::AllocError;

/// Adds a job, as documents have it.
#[tactic(auto, unfolding(crate::specs::Jobs::job_text))]
pub fn push_job(text: &mut Vec<u8>, job: &JobRow) -> Result<(), AllocError>
    ensures { OnOk result (text.new.items ≡ text.old.items ++ spec.job_text job.now) }
{
    text.extend_from_slice(b"{")?;
    push_key(text, &job.key)?;
    more(text, "class", job.class.as_str())?;
    push_flags(text, job.durable, job.no_concurrent, job.requests_recovery)?;
    unusual_text(text, "data", "", job.payload.as_str())?;
    text.extend_from_slice(b"}")
}

/// Adds the members of a key, which come first in their object.
#[tactic(auto, unfolding(crate::specs::Jobs::key_members))]
pub(crate) fn push_key(text: &mut Vec<u8>, key: &Key) -> Result<(), AllocError>
    ensures { OnOk result (text.new.items ≡ text.old.items ++ spec.key_members key.now) }
{
    push_label(text, "name")?;
    push_text(text, key.name.as_str())?;
    unusual_text(text, "group", "DEFAULT", key.group.as_str())
}

#[tactic(auto, unfolding(crate::specs::Jobs::flag_members))]
fn push_flags(
    text: &mut Vec<u8>,
    durable: bool,
    no_concurrent: bool,
    requests_recovery: bool,
) -> Result<(), AllocError>
    ensures { OnOk result (text.new.items ≡ text.old.items ++ spec.flag_members durable no_concurrent requests_recovery) }
{
    more_set(text, "durable", durable)?;
    more_set(text, "no_concurrent", no_concurrent)?;
    more_set(text, "requests_recovery", requests_recovery)
}
