//! The schedule of a cron trigger, from its start to its end.
ghost use Rattle.std.specs.Prelude.{◌≡◌, ℤ, pos, negsuc, ◌+ℤ◌, ◌≤ℤ◌, ◌<ℤ◌};
ghost use Rattle.qz_civil.specs.Least.{IsNext};
ghost use Rattle.qz_cron.specs.Moments.{IsMatch};
ghost use Rattle.qz_plan.specs.Schedule.{IsCron, start_second, up_to};

use qz_civil::{CronFields, LAST, LONGEST, Zone};

// The second in which the start lies.
fn start_second(start: i64) -> i64
    requires low { pos 0 ≤ℤ start }
    requires high { start ≤ℤ LONGEST }
    ensures value { result ≡ start_second start }
    ensures low { pos 0 ≤ℤ result }
    ensures high { result ≤ℤ LONGEST }
{
    start / 1000 * 1000
}

// What comes after the answer comes after `after` and not before `first`.
fn search_from(first: i64, after: i64) -> i64
    requires first_low { pos 0 ≤ℤ first }
    requires first_high { first ≤ℤ LAST }
    requires low { negsuc 0 ≤ℤ after }
    requires high { after ≤ℤ LAST }
    ensures behind { after ≤ℤ result }
    ensures reached { first ≤ℤ (result +ℤ pos 1) }
    ensures ahead { (s : ℤ) → after <ℤ s → first ≤ℤ s → result <ℤ s }
    ensures low { negsuc 0 ≤ℤ result }
    ensures high { result ≤ℤ LAST }
{
    if after < first { first - 1 } else { after }
}

// The next fire time after `after`, from a first timestamp on.
fn from_first(fields: &CronFields, zone: &Zone, first: i64, after: i64) -> Option<i64>
    requires first_low { pos 0 ≤ℤ first }
    requires first_high { first ≤ℤ LONGEST }
    requires low { negsuc 0 ≤ℤ after }
    requires high { after ≤ℤ LAST }
    ensures { IsNext LAST (λ t. IsMatch fields.now zone.now t × (first ≤ℤ t)) after result }
{
    if first > LAST {
        return None;
    }
    qz_cron::next(fields, zone, search_from(first, after))
}

// What was found, unless it comes after the end.
fn up_to(end: Option<i64>, found: Option<i64>) -> Option<i64>
    ensures { result ≡ up_to end found }
{
    match (end, found) {
        (Some(end), Some(t)) if end < t => None,
        _ => found,
    }
}

/// The next fire time after `after`. The second in which the start lies counts, and the end too.
pub(crate) fn cron_after(
    fields: &CronFields,
    zone: &Zone,
    start: i64,
    end: Option<i64>,
    after: i64,
) -> Option<i64>
    requires start_low { pos 0 ≤ℤ start }
    requires start_high { start ≤ℤ LONGEST }
    requires low { negsuc 0 ≤ℤ after }
    requires high { after ≤ℤ LAST }
    ensures { IsNext LAST (IsCron fields.now zone.now start end) after result }
{
    up_to(end, from_first(fields, zone, start_second(start), after))
}
