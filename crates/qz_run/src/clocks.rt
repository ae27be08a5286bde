//! The clock of a run.
ghost use Rattle.std.specs.Prelude.{◌≡◌, ◌<◌, ◌<ℤ◌, ◌≤ℤ◌, ℕ, ℤ, length, int_le, MatchOption, true, false};
ghost use Rattle.std.specs.Int.{int_max};
ghost use Rattle.qz_run.specs.Stores.{IsTime};
ghost use Rattle.qz_run.specs.Laws.{IsOurs};
ghost use Rattle.qz_run.specs.Working.{IsPlan, MayAsk};
ghost use Rattle.qz_run.specs.Moments.{Working};
ghost use Rattle.qz_run.specs.RunRules.{MayGoOn};

use crate::{Clock, Plan, Stores};

/// What the clock of a run shows before anything is due: the later of FROM and the last moment.
pub fn first_clock<S: Stores>(stores: &S, plan: &Plan) -> Clock
    requires plan { IsPlan plan.now }
    ensures at { result.at ≡ int_max (S.state stores.now).view.last plan.now.from }
    ensures time { IsTime result.at }
{
    Clock {
        at: stores.last_moment().max(plan.from),
    }
}

/// The least next time of a WAITING trigger.
pub fn next_of<S: Stores>(stores: &S) -> Option<Clock>
    ensures { MatchOption result ((t : ℤ) → (S.state stores.now).view.due t ≡ false) (λ next. (t : ℤ) → (S.state stores.now).view.due t ≡ int_le next.at t) }
{
    match stores.next_due() {
        Some(at) => Some(Clock { at }),
        None => None,
    }
}

/// Whether the moment is at most the plan's end.
pub fn is_by(next: &Clock, plan: &Plan) -> bool
    ensures by { result ≡ true → next.now.at ≤ℤ plan.now.until }
    ensures not_by { result ≡ false → plan.now.until <ℤ next.now.at }
{
    next.at <= plan.until
}

fn is_later(next: &Clock, clock: &Clock) -> bool
    ensures later { result ≡ true → clock.now.at <ℤ next.now.at }
    ensures not_later { result ≡ false → next.now.at ≤ℤ clock.now.at }
{
    next.at > clock.at
}

/// Turns the clock to the least next time of a WAITING trigger, if that is later.
#[tactic(auto, using(crate::proofs::Turning::stays_ask))]
pub fn turn_clock<S: Stores>(stores: &S, plan: &Plan, clock: &mut Clock, next: &Clock)
    requires plan { IsPlan plan.now }
    requires working { Working plan.now clock.old.at (S.state stores.now) }
    requires go_on { MayGoOn plan.now clock.old.at (S.state stores.now) }
    requires some { 0 < length (S.state stores.now).log }
    requires due { (t : ℤ) → (S.state stores.now).view.due t ≡ int_le next.now.at t }
    requires within { next.now.at ≤ℤ plan.now.until }
    ensures working { Working plan.now clock.new.at (S.state stores.now) }
    ensures may_ask { (n : ℕ) → IsOurs plan.now n → MayAsk n clock.new.at (S.state stores.now) }
{
    let _ = stores;
    let _ = plan;
    if is_later(next, clock) {
        *clock = *next;
    }
}
