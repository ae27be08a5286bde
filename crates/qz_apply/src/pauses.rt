//! Which groups are paused.
ghost use Rattle.std.specs.Prelude.{◌≡◌, option_copied};
ghost use Rattle.qz_types.specs.Words.{is_paused};
ghost use Rattle.qz_model.specs.Triggers.{is_in_paused};

use qz_tables::Tables;
use qz_types::{Text, TriggerSpec};

/// Whether a trigger that is stored now is paused, with its group or with the group of its job.
#[tactic(auto, unfolding(qz_model::specs::Triggers::is_in_paused))]
pub fn is_in_paused(tables: &Tables, spec: &TriggerSpec) -> bool
    ensures { result ≡ is_in_paused tables.now.tables spec.now }
{
    is_paused(tables, &spec.key.group) || is_job_group_paused(tables, &spec.job.group)
}

/// Whether the group of triggers is paused.
pub fn is_paused(tables: &Tables, group: &Text) -> bool
    ensures { result ≡ is_paused group.now tables.now.tables.paused_groups }
{
    tables.get_group(group).is_some()
}

/// Whether the group of jobs is paused.
pub fn is_job_group_paused(tables: &Tables, group: &Text) -> bool
    ensures { result ≡ is_paused group.now tables.now.tables.paused_job_groups }
{
    tables.get_job_group(group).is_some()
}
