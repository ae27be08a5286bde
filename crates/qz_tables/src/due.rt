//! Which waiting trigger comes next in due order.
ghost use Rattle.std.specs.Prelude.{◌≡◌, true, option_copied, slice_get, filter};
ghost use Rattle.qz_types.specs.Due.{is_waiting, due_cmp, in_due_order, earlier};
ghost use Rattle.qz_tables.specs.Due.{is_later, waits_after, waits_and, due_first, due_next};

use crate::due_keys::is_waiting;
use crate::indexed::{Indexed, Test};
use crate::tables::Tables;
use qz_types::{Key, TriggerRow};
use std::cmp::Ordering;

impl Tables {
    /// The first trigger that waits, in due order: the earlier next time, then the greater priority, then the lesser key.
    ///
    /// It takes the same time for any number of triggers, as long as the due queue has them all. It has, unless memory for
    /// it ran out once; then each trigger is looked at.
    pub fn due_first(&self) -> Option<&TriggerRow>
        ensures { option_copied result ≡ due_first self.now.tables.triggers }
    {
        self.triggers.due_first()
    }

    /// The next trigger that waits and passes, in due order, after the one of this key, if one is given. There is none
    /// where that isn't stored.
    ///
    /// It looks at the triggers that wait and that it passes over, since they don't pass or don't come after that key, and
    /// at two for each of them. Where the due queue doesn't have all triggers, it looks at each.
    pub fn due_next<T: Test<TriggerRow>>(
        &self,
        after: Option<&Key>,
        test: &T,
    ) -> Option<&TriggerRow>
        ensures { option_copied result ≡ due_next (option_copied after.entry) (T.test test.now) self.now.tables.triggers }
    {
        self.triggers.due_next(after, test)
    }
}

/// Each trigger passes.
#[derive(Drop)]
pub struct Any;

impl Test<TriggerRow> for Any {
    ghost test = { λ t row. true };

    fn passes(&self, _row: &TriggerRow) -> bool {
        true
    }
}

// The first of the triggers that wait, come after this one, if one is given, and pass.
pub fn first_waiting<'a, T: Test<TriggerRow>>(
    triggers: &'a Indexed<TriggerRow>,
    after: Option<&TriggerRow>,
    test: &T,
) -> Option<&'a TriggerRow>
    ensures { option_copied result ≡ slice_get (in_due_order (filter (waits_and (option_copied after.entry) (T.test test.now)) triggers.now.rows)) 0 }
{
    let mut first = None;
    let mut place = triggers.len();
    while place > 0 {
        place -= 1;
        let Some(trigger) = triggers.nth(place) else {
            unreachable!()
        };
        if waits_and(after, test, trigger) {
            first = Some(earlier(trigger, first));
        }
    }
    first
}

fn waits_and<T: Test<TriggerRow>>(
    after: Option<&TriggerRow>,
    test: &T,
    trigger: &TriggerRow,
) -> bool
    ensures { result ≡ waits_and (option_copied after.entry) (T.test test.now) trigger.now }
{
    waits_after(after, trigger) && test.passes(trigger)
}

fn waits_after(after: Option<&TriggerRow>, trigger: &TriggerRow) -> bool
    ensures { result ≡ waits_after (option_copied after.entry) trigger.now }
{
    is_waiting(trigger.state) && is_later(after, trigger)
}

fn is_later(after: Option<&TriggerRow>, trigger: &TriggerRow) -> bool
    ensures { result ≡ is_later (option_copied after.entry) trigger.now }
{
    match after {
        Some(after) => compare(trigger, after) == Ordering::Greater,
        None => true,
    }
}

// The earlier of the two in due order.
fn earlier<'a>(trigger: &'a TriggerRow, other: Option<&'a TriggerRow>) -> &'a TriggerRow
    ensures { result.now ≡ earlier trigger.now (option_copied other.entry) }
{
    match other {
        Some(other) if compare(trigger, other) == Ordering::Greater => other,
        _ => trigger,
    }
}

// By next time, then the greater priority, then the key.
#[tactic(auto, unfolding(qz_types::specs::Due::due_cmp))]
fn compare(a: &TriggerRow, b: &TriggerRow) -> Ordering
    ensures { result ≡ due_cmp a.now b.now }
{
    a.next
        .cmp(&b.next)
        .then(b.spec.priority.cmp(&a.spec.priority))
        .then(a.spec.key.cmp(&b.spec.key))
}
