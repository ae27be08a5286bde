//! Which triggers an Acquire takes.
ghost use Rattle.std.specs.Prelude.{◌≡◌, ◌||◌, IfOk, map, option_copied};
ghost use Rattle.qz_types.specs.Tables.{IsMoment};
ghost use Rattle.qz_model.specs.Acquiring.{is_sibling, chosen};
ghost use Rattle.qz_model.specs.Invariant.{TablesValid};
ghost use Rattle.qz_acquire.specs.Choosing.{has_sibling, may_take};
ghost use Rattle.qz_acquire.specs.Walk.{is_past, unless_past};
ghost use Rattle.qz_tables.specs.Due.{due_next};

use crate::due::{earliest, is_on_time, is_past};
use crate::jobs::is_exclusive;
use qz_apply::same_key;
use qz_tables::{Tables, Test};
use qz_types::{Key, TriggerRow};
use std::alloc::AllocError;

/// The first triggers in due order that are due up to this limit, up to so many, and of each job whose executions exclude
/// each other one alone. The moment and the limit are in ms since 1970-01-01T00:00:00Z.
pub fn chosen(
    tables: &Tables,
    moment: i64,
    limit: i64,
    max: u32,
) -> Result<Vec<&TriggerRow>, AllocError>
    requires valid { ∥ TablesValid tables.now.tables ∥₁ }
    requires moment { IsMoment tables.now.tables.horizon moment }
    ensures { IfOk result (λ rows. map (λ r. r.now) rows.items ≡ chosen tables.now.tables moment limit max) }
{
    let earliest = earliest(tables, moment);
    let mut taken = Vec::new(tables.allocator());
    let mut last = None;
    while taken.len() < max as usize {
        let Some(trigger) = next_taken(tables, earliest, limit, &taken, last) else {
            return Ok(taken);
        };
        taken.push(trigger)?;
        last = Some(&trigger.spec.key);
    }
    Ok(taken)
}

// The next trigger that is taken after these, of which the last has this key.
fn next_taken<'a>(
    tables: &'a Tables,
    earliest: i64,
    limit: i64,
    taken: &[&TriggerRow],
    last: Option<&Key>,
) -> Option<&'a TriggerRow>
    ensures { option_copied result ≡ unless_past (λ t. is_past limit t.next) (due_next (option_copied last.entry) (λ t. is_past limit t.next || may_take earliest limit tables.now.tables.jobs (map (λ r. r.now) taken.now) t) tables.now.tables.triggers) }
{
    let stop = Stop {
        tables,
        earliest,
        limit,
        taken,
    };
    match tables.due_next(last, &stop) {
        Some(trigger) if !is_past(limit, trigger.next) => Some(trigger),
        _ => None,
    }
}

/// The walk stops at a trigger that is taken after these, and at one that is past the limit.
#[derive(Drop)]
struct Stop<'a> {
    tables: &'a Tables,
    earliest: i64,
    limit: i64,
    taken: &'a [&'a TriggerRow],
}

impl<'a> Test<TriggerRow> for Stop<'a> {
    ghost test = { λ s t. is_past s.limit t.next || may_take s.earliest s.limit s.tables.now.tables.jobs (map (λ r. r.now) s.taken.now) t };

    fn passes(&self, trigger: &TriggerRow) -> bool {
        is_past(self.limit, trigger.next)
            || may_take(self.tables, self.earliest, self.limit, self.taken, trigger)
    }
}

// Whether a trigger is taken after these.
fn may_take(
    tables: &Tables,
    earliest: i64,
    limit: i64,
    taken: &[&TriggerRow],
    trigger: &TriggerRow,
) -> bool
    ensures { result ≡ may_take earliest limit tables.now.tables.jobs (map (λ r. r.now) taken.now) trigger.now }
{
    is_on_time(earliest, limit, trigger) && !has_sibling(tables, taken, trigger)
}

fn has_sibling(tables: &Tables, taken: &[&TriggerRow], trigger: &TriggerRow) -> bool
    ensures { result ≡ has_sibling tables.now.tables.jobs (map (λ r. r.now) taken.now) trigger.now }
{
    for one in taken {
        if is_sibling(tables, one, trigger) {
            return true;
        }
    }
    false
}

#[tactic(auto, unfolding(qz_model::specs::Acquiring::is_sibling))]
fn is_sibling(tables: &Tables, one: &TriggerRow, other: &TriggerRow) -> bool
    ensures { result ≡ is_sibling tables.now.tables.jobs one.now other.now }
{
    is_exclusive(tables, &one.spec.job) && same_key(&one.spec.job, &other.spec.job)
}
