//! The misfire table.
ghost use Rattle.std.specs.Prelude.{◌≡◌, ℤ, Option, pos, negsuc, ◌≤ℤ◌, ◌<ℤ◌, ◌+◌, ◌-◌, ◌≤◌, ◌^◌, min, unsigned_abs, IfSome, IsTrue};
ghost use Rattle.qz_civil.specs.Least.{IsNext};
ghost use Rattle.qz_civil.specs.Timings.{is_timing};
ghost use Rattle.qz_misfire.specs.Effects.{count_of, interval_of};
ghost use Rattle.qz_misfire.specs.Table as spec;

use crate::effects::{Effect, count_of, effect_of, interval_of, is_over};
use qz_civil::{LAST, Moved, Times, Timing, to_unsigned};

/// The greatest number of firings that is counted.
const TIMES_LIMIT: u64 = 1 << 63;

/// What a misfire makes of a trigger, by the misfire table. Its next fire time was `next`, it has fired `times` times, and
/// the misfire is handled at `now`. `later` is the trigger's schedule with its calendars. Timestamps are in ms since
/// 1970-01-01T00:00:00Z.
///
/// The instructions are numbered as Quartz's constants MISFIRE_INSTRUCTION_*, and the effects are this scheduler's own. The
/// instruction -1, to ignore misfires, isn't looked at: such a trigger is never misfired.
pub fn after_misfire<T: Times>(timing: &Timing, later: &T, next: i64, times: u64, now: i64) -> Moved
    requires timing { IsTrue (is_timing timing.now) }
    requires next { pos 0 ≤ℤ next }
    requires missed { next <ℤ now }
    requires now { now ≤ℤ LAST }
    requires times { times ≤ 2 ^ 63 }
    ensures { (l : Option ℤ) → IsNext LAST (T.timestamps later.now) now l → result ≡ spec.moved timing.now l next times now }
{
    match effect_of(&timing.kind, timing.misfire) {
        Effect::FireNow => unless_over(timing, times, now, resumed(timing, Some(now), times)),
        Effect::Restart => unless_over(timing, times, now, restarted(timing, times, now, 0)),
        Effect::RestartWithoutMissed => {
            let fewer = missed(interval_of(&timing.kind), next, now);
            unless_over(timing, times, now, restarted(timing, times, now, fewer))
        }
        Effect::ResumeCountingMissed => {
            let later = later.next(now);
            resumed(timing, later, counting_missed(timing, next, times, later))
        }
        Effect::Resume => resumed(timing, later.next(now), times),
    }
}

fn resumed(timing: &Timing, next: Option<i64>, times: u64) -> Moved
    ensures { result ≡ spec.resumed timing.now next times }
{
    Moved {
        start: timing.start,
        next,
        count: count_of(&timing.kind),
        times,
    }
}

fn unless_over(timing: &Timing, times: u64, now: i64, fires: Moved) -> Moved
    ensures { result ≡ spec.unless_over timing.now times now fires }
{
    if is_over(&timing.kind, timing.end, now) {
        resumed(timing, None, times)
    } else {
        fires
    }
}

#[tactic(auto, unfolding(crate::specs::Table::restarted))]
fn restarted(timing: &Timing, times: u64, now: i64, fewer: u64) -> Moved
    requires { negsuc 0 ≤ℤ count_of timing.now.kind }
    ensures { result ≡ spec.restarted timing.now times now fewer }
{
    let count = count_of(&timing.kind);
    if count == -1 || count == 0 {
        return Moved {
            start: now,
            next: Some(now),
            count,
            times,
        };
    }
    Moved {
        start: now,
        next: Some(now),
        count: count_left(count, times, fewer),
        times: 0,
    }
}

fn count_left(count: i64, times: u64, fewer: u64) -> i64
    requires { pos 0 ≤ℤ count }
    ensures { result ≡ pos (unsigned_abs count - times - fewer) }
{
    to_unsigned(count)
        .saturating_sub(times)
        .saturating_sub(fewer) as i64
}

#[tactic(auto, unfolding(crate::specs::Table::missed))]
fn missed(interval: i64, from: i64, to: i64) -> u64
    requires interval { pos 0 ≤ℤ interval }
    requires from { pos 0 ≤ℤ from }
    requires to { from ≤ℤ to }
    ensures value { result ≡ spec.missed interval from to }
    ensures bound { result ≤ 2 ^ 63 }
{
    if interval == 0 {
        return 0;
    }
    to_unsigned(to - from) / to_unsigned(interval)
}

#[tactic(auto, unfolding(crate::specs::Table::counting_missed))]
fn counting_missed(timing: &Timing, next: i64, times: u64, later: Option<i64>) -> u64
    requires interval { pos 0 ≤ℤ interval_of timing.now.kind }
    requires next { pos 0 ≤ℤ next }
    requires times { times ≤ 2 ^ 63 }
    requires later { IfSome later (λ l. next ≤ℤ l) }
    ensures { result ≡ spec.counting_missed timing.now next times later }
{
    match later {
        None => times,
        Some(later) => counted(times, missed(interval_of(&timing.kind), next, later)),
    }
}

fn counted(times: u64, more: u64) -> u64
    requires { times ≤ 2 ^ 63 }
    ensures { result ≡ min (times + more) (2 ^ 63) }
{
    times.saturating_add(more).min(TIMES_LIMIT)
}
