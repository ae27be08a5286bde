//! Firing a job at once, by a trigger that is added for it.
ghost use Rattle.std.specs.Prelude.{◌≡◌, ◌≤◌, ◌+◌, ◌++◌, Some, None, IsTrue, IfOk, codes, decimal, option_copied};
ghost use Rattle.qz_civil.specs.Timings.{is_span};
ghost use Rattle.qz_types.specs.declared.limits.TheConstants.{NUMBER_LIMIT};
ghost use Rattle.qz_types.specs.Rows.{is_key};
ghost use Rattle.qz_types.specs.Outcomes.{accepted};
ghost use Rattle.qz_model.specs.Invariant.{TablesValid};
ghost use Rattle.qz_model.specs.Triggers.{manual_trigger, new_trigger, trigger_now_refusal, trigger_now};

use crate::changes::Change;
use crate::triggers::new_trigger;
use qz_tables::Tables;
use qz_types::{
    Key, Kind, NUMBER_LIMIT, Refusal, Reply, TRIGGER_LIMIT, Text, Timing, TriggerRow, TriggerSpec,
};
use std::alloc::{AllocError, Global};

/// The row that a TriggerNow stores, and its key for the reply. The moment is in ms since 1970-01-01T00:00:00Z.
pub fn copy_manual(tables: &Tables, moment: i64, job: &Key) -> Result<Change, AllocError>
    requires job { IsTrue (is_key job.now) }
    requires moment { IsTrue (is_span moment) }
    requires accepts { trigger_now_refusal tables.now.tables job.now ≡ None }
    ensures { IfOk result (λ change. change ≡ Change.Manual (new_trigger tables.now.tables (manual_trigger moment tables.now.tables.next_entry job.now) (Some moment)) (manual_trigger moment tables.now.tables.next_entry job.now).key) }
{
    let spec = manual_trigger(tables.allocator(), moment, tables.next_entry(), job)?;
    let key = spec.key.copy()?;
    let row = new_trigger(tables, spec, Some(moment));
    Ok(Change::Manual { row, key })
}

/// Stores a trigger that fires its job once, at the moment, in ms since 1970-01-01T00:00:00Z. Nothing refuses it.
pub fn trigger_now(tables: &mut Tables, moment: i64, row: TriggerRow, key: Key) -> Reply
    requires valid { ∥ TablesValid tables.old.tables ∥₁ }
    requires accepts { trigger_now_refusal tables.old.tables row.spec.job ≡ None }
    requires row { row ≡ new_trigger tables.old.tables (manual_trigger moment tables.old.tables.next_entry row.spec.job) (Some moment) }
    requires key { key ≡ row.spec.key }
    requires spare { 1 ≤ tables.old.spare.triggers }
    ensures { trigger_now tables.old.tables moment row.spec.job ≡ accepted tables.new.tables result }
{
    let entry = tables.next_entry();
    tables.insert_trigger(row);
    tables.set_next_entry(entry + 1);
    tables.set_last_moment(moment);
    Reply::Triggered {
        trigger: key,
        next: moment,
    }
}

/// Why no trigger is added, if none is.
#[tactic(auto, unfolding(qz_model::specs::Triggers::trigger_now_refusal))]
pub fn trigger_now_refusal(tables: &Tables, job: &Key) -> Option<Refusal>
    ensures { result ≡ trigger_now_refusal tables.now.tables job.now }
{
    if tables.get_job(job).is_none() {
        return Some(Refusal::UnknownJob);
    }
    if tables.len_triggers() as u64 >= TRIGGER_LIMIT {
        return Some(Refusal::TooMany {
            count: TRIGGER_LIMIT,
        });
    }
    if tables.next_entry() >= NUMBER_LIMIT {
        return Some(Refusal::TooMany {
            count: NUMBER_LIMIT,
        });
    }
    None
}

// Fires once, at the moment.
#[tactic(auto, unfolding(qz_model::specs::Triggers::manual_trigger))]
fn manual_trigger(
    alloc: Global,
    moment: i64,
    entry: u64,
    job: &Key,
) -> Result<TriggerSpec, AllocError>
    ensures { IfOk result (λ spec. spec ≡ manual_trigger moment entry job.now) }
{
    let name = manual_name(alloc, entry)?;
    let key = Key::new(alloc, "MANUAL_TRIGGERS", name.as_str())?;
    let job = job.copy()?;
    Ok(TriggerSpec {
        key,
        job,
        priority: 5,
        calendar: None,
        timing: Timing {
            kind: Kind::Simple {
                interval: 0,
                count: 0,
            },
            misfire: 0,
            start: moment,
            end: None,
        },
    })
}

fn manual_name(alloc: Global, entry: u64) -> Result<Text, AllocError>
    ensures { IfOk result (λ name. name ≡ codes "now_" ++ decimal entry) }
{
    let name = format!(in alloc; "now_{entry}")?;
    Ok(Text::from_string(name))
}
