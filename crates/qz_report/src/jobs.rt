//! Jobs, as they are printed.
ghost use Rattle.std.specs.Prelude.{◌≡◌, ◌++◌, OnOk, string_bytes};
ghost use Rattle.qz_report.specs.Rows as spec;

use crate::names::{push_key, push_name};
use qz_types::{JobRow, Key, Text};
use std::alloc::AllocError;

/// Adds the key, the class and the flags of a job. What it is given to execute isn't added.
#[tactic(auto, unfolding(crate::specs::Rows::job_text))]
pub fn push_job(text: &mut String, job: &JobRow) -> Result<(), AllocError>
    ensures { OnOk result (string_bytes text.new ≡ string_bytes text.old ++ spec.job_text job.now) }
{
    push_names(text, &job.key, &job.class)?;
    push_flags(text, job.durable, job.no_concurrent)?;
    push_recovery(text, job.requests_recovery)
}

#[tactic(auto, unfolding(crate::specs::Rows::job_names))]
fn push_names(text: &mut String, key: &Key, class: &Text) -> Result<(), AllocError>
    ensures { OnOk result (string_bytes text.new ≡ string_bytes text.old ++ spec.job_names key.now class.now) }
{
    text.push_str("job ")?;
    push_key(text, key)?;
    text.push(' ')?;
    push_name(text, class.as_str())
}

#[tactic(auto, unfolding(crate::specs::Rows::job_flags))]
fn push_flags(text: &mut String, durable: bool, no_concurrent: bool) -> Result<(), AllocError>
    ensures { OnOk result (string_bytes text.new ≡ string_bytes text.old ++ spec.job_flags durable no_concurrent) }
{
    text.push_str(" durable ")?;
    push_flag(text, durable)?;
    text.push_str(" no_concurrent ")?;
    push_flag(text, no_concurrent)
}

#[tactic(auto, unfolding(crate::specs::Rows::recovery_flag))]
fn push_recovery(text: &mut String, requests_recovery: bool) -> Result<(), AllocError>
    ensures { OnOk result (string_bytes text.new ≡ string_bytes text.old ++ spec.recovery_flag requests_recovery) }
{
    text.push_str(" requests_recovery ")?;
    push_flag(text, requests_recovery)
}

fn push_flag(text: &mut String, is: bool) -> Result<(), AllocError>
    ensures { OnOk result (string_bytes text.new ≡ string_bytes text.old ++ spec.flag_text is) }
{
    text.push_str(if is { "1" } else { "0" })
}
