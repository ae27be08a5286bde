//! Which triggers are due, and which are misfired. Times are in ms since 1970-01-01T00:00:00Z.
ghost use Rattle.std.specs.Prelude.{◌≡◌, ◌-ℤ◌, negsuc};
ghost use Rattle.std.specs.Ordering.{int_eq};
ghost use Rattle.qz_types.specs.Tables.{IsMoment};
ghost use Rattle.qz_types.specs.Due.{is_waiting};
ghost use Rattle.qz_model.specs.Due.{is_up_to, is_before};
ghost use Rattle.qz_model.specs.Invariant.{TablesValid};
ghost use Rattle.qz_acquire.specs.Walk.{is_past, is_from, is_late, is_missed, is_on_time};

use qz_tables::Tables;
use qz_types::{TriggerRow, TriggerSpec, TriggerState};

/// Whether the trigger waits, its next time isn't past the limit, and it isn't misfired, where this is the earliest next
/// time that isn't.
pub fn is_on_time(earliest: i64, limit: i64, trigger: &TriggerRow) -> bool
    ensures { result ≡ is_on_time earliest limit trigger.now }
{
    is_waiting(trigger.state) && is_up_to(limit, trigger.next) && !is_late(earliest, trigger)
}

/// Whether the trigger waits, and is misfired, where this is the earliest next time that isn't.
pub fn is_missed(earliest: i64, trigger: &TriggerRow) -> bool
    ensures { result ≡ is_missed earliest trigger.now }
{
    is_waiting(trigger.state) && is_late(earliest, trigger)
}

fn is_late(earliest: i64, trigger: &TriggerRow) -> bool
    ensures { result ≡ is_late earliest trigger.now }
{
    !ignores_misfires(&trigger.spec) && is_before(earliest, trigger.next)
}

/// The earliest next time that isn't misfired.
pub fn earliest(tables: &Tables, moment: i64) -> i64
    requires valid { ∥ TablesValid tables.now.tables ∥₁ }
    requires moment { IsMoment tables.now.tables.horizon moment }
    ensures { result ≡ moment -ℤ tables.now.tables.threshold }
{
    moment - tables.threshold()
}

fn ignores_misfires(spec: &TriggerSpec) -> bool
    ensures { result ≡ int_eq spec.now.timing.misfire (negsuc 0) }
{
    spec.timing.misfire == -1
}

fn is_waiting(state: TriggerState) -> bool
    ensures { result ≡ is_waiting state }
{
    matches!(state, TriggerState::Waiting)
}

fn is_up_to(limit: i64, next: Option<i64>) -> bool
    ensures { result ≡ is_up_to limit next }
{
    match next {
        None => false,
        Some(next) => next <= limit,
    }
}

fn is_before(time: i64, next: Option<i64>) -> bool
    ensures { result ≡ is_before time next }
{
    match next {
        None => false,
        Some(next) => next < time,
    }
}

/// Whether there is a next time, and it is past the limit.
pub fn is_past(limit: i64, next: Option<i64>) -> bool
    ensures { result ≡ is_past limit next }
{
    match next {
        None => false,
        Some(next) => next > limit,
    }
}

/// Whether there is a next time, and it doesn't lie before this one.
pub fn is_from(time: i64, next: Option<i64>) -> bool
    ensures { result ≡ is_from time next }
{
    match next {
        None => false,
        Some(next) => next >= time,
    }
}
