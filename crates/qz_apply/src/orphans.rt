//! Jobs that go with their last trigger.
ghost use Rattle.std.specs.Prelude.{◌≡◌, option_copied};
ghost use Rattle.std.specs.List.{list_any};
ghost use Rattle.qz_model.specs.Jobs.{is_orphan, without_orphan_of};
ghost use Rattle.qz_model.specs.Tests.{is_trigger_of};
ghost use Rattle.qz_model.specs.Triggers.{without_trigger_and_orphan};
ghost use Rattle.qz_types.specs.Words.{trigger_of};
ghost use Rattle.qz_tables.specs.Contents.{KeepsSpare};

use qz_tables::Tables;
use qz_types::{JobRow, Key};

/// The job of this key goes, if it is an orphan: it isn't durable, and has no trigger.
#[tactic(auto, using(crate::proofs::JobLists::key_of_job), unfolding(qz_model::specs::Jobs::without_orphan_of))]
pub fn remove_orphan(tables: &mut Tables, key: &Key)
    ensures tables { tables.new.tables ≡ record tables.old.tables { jobs = without_orphan_of key.now tables.old.tables.triggers tables.old.tables.jobs } }
    ensures spare { KeepsSpare tables.old.spare tables.new.spare }
{
    let Some(job) = tables.get_job(key) else {
        return;
    };
    if !is_orphan(tables, job) {
        return;
    }
    let removed = tables.remove_job(key);
    drop(removed);
}

/// The trigger of this key goes, if it is stored, with its row if it is acquired, and with its job if that is an orphan then.
///
/// It looks at every fired row.
#[tactic(auto, using(crate::proofs::JobLists::key_of_trigger), unfolding(qz_model::specs::Triggers::without_trigger_and_orphan))]
pub fn remove_trigger_and_orphan(tables: &mut Tables, key: &Key)
    ensures tables { tables.new.tables ≡ without_trigger_and_orphan tables.old.tables (trigger_of key.now tables.old.tables.triggers) }
    ensures spare { KeepsSpare tables.old.spare tables.new.spare }
{
    let Some(trigger) = tables.remove_trigger(key) else {
        return;
    };
    tables.remove_acquired(key);
    remove_orphan(tables, &trigger.spec.job);
    drop(trigger);
}

#[tactic(auto, unfolding(qz_model::specs::Jobs::is_orphan))]
fn is_orphan(tables: &Tables, job: &JobRow) -> bool
    ensures { result ≡ is_orphan tables.now.tables.triggers job.now }
{
    !job.durable && !has_trigger(tables, &job.key)
}

fn has_trigger(tables: &Tables, job: &Key) -> bool
    ensures { result ≡ list_any (is_trigger_of job.now) tables.now.tables.triggers }
{
    let mut triggers = tables.triggers_of(job);
    triggers.next().is_some()
}
