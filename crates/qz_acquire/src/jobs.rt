//! The flags of stored jobs.
ghost use Rattle.std.specs.Prelude.{◌≡◌, option_copied};
ghost use Rattle.qz_model.specs.Tests.{stored_job};

use qz_tables::Tables;
use qz_types::Key;

/// Whether the executions of the job of this key exclude each other; false where it isn't stored.
#[tactic(auto, unfolding(qz_model::specs::Tests::stored_job))]
pub fn is_exclusive(tables: &Tables, key: &Key) -> bool
    ensures { result ≡ (stored_job key.now tables.now.tables.jobs).no_concurrent }
{
    match tables.get_job(key) {
        Some(job) => job.no_concurrent,
        None => false,
    }
}

/// Whether a lost execution of the job of this key yields a recovery trigger; false where it isn't stored.
#[tactic(auto, unfolding(qz_model::specs::Tests::stored_job))]
pub fn is_recovered(tables: &Tables, key: &Key) -> bool
    ensures { result ≡ (stored_job key.now tables.now.tables.jobs).requests_recovery }
{
    match tables.get_job(key) {
        Some(job) => job.requests_recovery,
        None => false,
    }
}
