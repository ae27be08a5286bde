//! Adding and deleting jobs.
ghost use Rattle.std.specs.Prelude.{◌≡◌, ◌≤◌, Bool, None, find, option_copied};
ghost use Rattle.qz_types.specs.Outcomes.{accepted};
ghost use Rattle.qz_types.specs.Words.{job_of, put_job, without_job};
ghost use Rattle.qz_model.specs.Jobs.{differ, has_other_flag, flag_refusal, add_job_refusal, add_job, unknown_job, delete_job};

use qz_apply::{is_acquired, same_key};
use qz_tables::Tables;
use qz_types::{FiredRow, JOB_LIMIT, JobRow, Key, Refusal, Reply};

/// Stores the job, which nothing refuses, in place of one of its key. The moment is in ms since 1970-01-01T00:00:00Z.
pub fn add_job(tables: &mut Tables, moment: i64, job: JobRow) -> Reply
    requires { 1 ≤ tables.old.spare.jobs }
    ensures { (replace : Bool) → add_job_refusal tables.old.tables job replace ≡ None → add_job tables.old.tables moment job replace ≡ accepted tables.new.tables result }
{
    set_job(tables, job);
    tables.set_last_moment(moment);
    Reply::Done
}

/// Why the job isn't added, if it isn't.
#[tactic(auto, unfolding(qz_model::specs::Jobs::add_job_refusal))]
pub fn add_job_refusal(tables: &Tables, job: &JobRow, replace: bool) -> Option<Refusal>
    ensures { result ≡ add_job_refusal tables.now.tables job.now replace }
{
    let stored = tables.get_job(&job.key).is_some();
    if stored && !replace {
        return Some(Refusal::JobExists);
    }
    if let Some(refusal) = flag_refusal(tables, job) {
        return Some(refusal);
    }
    if !stored && tables.len_jobs() as u64 >= JOB_LIMIT {
        return Some(Refusal::TooMany { count: JOB_LIMIT });
    }
    None
}

// An execution of the job's key goes on under another flag. It looks at each fired row.
#[tactic(auto, using(qz_apply::proofs::Searches::first_at, qz_apply::proofs::Searches::none_passes))]
fn flag_refusal(tables: &Tables, job: &JobRow) -> Option<Refusal>
    ensures { result ≡ flag_refusal (find (has_other_flag job.now) tables.now.tables.fired) }
{
    for place in 0..tables.len_fired() {
        let Some(row) = tables.nth_fired(place) else {
            unreachable!()
        };
        if has_other_flag(job, row) {
            return Some(Refusal::FlagInUse { entry: row.entry });
        }
    }
    None
}

#[tactic(auto, unfolding(qz_model::specs::Jobs::has_other_flag))]
fn has_other_flag(job: &JobRow, row: &FiredRow) -> bool
    ensures { result ≡ has_other_flag job.now row.now }
{
    !is_acquired(row.state)
        && same_key(&job.key, &row.job)
        && differ(job.no_concurrent, row.no_concurrent)
}

fn differ(a: bool, b: bool) -> bool
    ensures { result ≡ differ a b }
{
    a != b
}

// Puts the job in place of one of its key.
#[tactic(auto, using(crate::proofs::Absent::no_job))]
fn set_job(tables: &mut Tables, job: JobRow)
    requires { 1 ≤ tables.old.spare.jobs }
    ensures { tables.new.tables ≡ record tables.old.tables { jobs = put_job job (without_job job.key tables.old.tables.jobs) } }
{
    let old = tables.remove_job(&job.key);
    drop(old);
    tables.insert_job(job);
}

/// Deletes the job, which is stored, with its triggers. Its executions go on. The moment is in ms since
/// 1970-01-01T00:00:00Z.
pub fn delete_job(tables: &mut Tables, moment: i64, key: &Key) -> Reply
    requires { unknown_job (job_of key.now tables.old.tables.jobs) ≡ None }
    ensures { delete_job tables.old.tables moment key.now ≡ accepted tables.new.tables result }
{
    tables.remove_acquired_of_job(key);
    let triggers = tables.remove_job_triggers(key) as u64;
    let removed = tables.remove_job(key);
    drop(removed);
    tables.set_last_moment(moment);
    Reply::Deleted { triggers }
}

/// Why the job isn't deleted, if it isn't.
pub fn delete_job_refusal(tables: &Tables, key: &Key) -> Option<Refusal>
    ensures { result ≡ unknown_job (job_of key.now tables.now.tables.jobs) }
{
    match tables.get_job(key) {
        None => Some(Refusal::UnknownJob),
        Some(_) => None,
    }
}
