//! Lines of triggers and of paused groups.
ghost use Rattle.std.specs.Prelude.{◌≡◌, ◌++◌, OnOk, map, string_bytes};
ghost use Rattle.std.specs.List.{flat_map};
ghost use Rattle.qz_listing.specs.Lines as spec;

use crate::lines::Line;
use qz_report::{push_name, push_trigger};
use qz_types::{Text, TriggerRow};
use std::alloc::AllocError;

impl Line for TriggerRow {
    ghost line = { λ t. spec.trigger_line t };

    fn push_line(&self, text: &mut String) -> Result<(), AllocError> {
        push_trigger(text, self)?;
        text.push('\n')
    }
}

/// A paused group.
impl Line for Text {
    ghost line = { λ g. spec.group_line g };

    fn push_line(&self, text: &mut String) -> Result<(), AllocError> {
        text.push_str("paused ")?;
        push_name(text, self.as_str())?;
        text.push('\n')
    }
}

/// Adds the line of each paused group of jobs.
pub(crate) fn push_job_groups(text: &mut String, groups: &[&Text]) -> Result<(), AllocError>
    ensures { OnOk result (string_bytes text.new ≡ string_bytes text.old ++ flat_map spec.job_group_line (map (λ g. g.now) groups.now)) }
{
    for group in groups {
        push_job_group(text, group)?;
    }
    Ok(())
}

#[tactic(auto, unfolding(crate::specs::Lines::job_group_line))]
fn push_job_group(text: &mut String, group: &Text) -> Result<(), AllocError>
    ensures { OnOk result (string_bytes text.new ≡ string_bytes text.old ++ spec.job_group_line group.now) }
{
    text.push_str("paused_jobs ")?;
    push_name(text, group.as_str())?;
    text.push('\n')
}
