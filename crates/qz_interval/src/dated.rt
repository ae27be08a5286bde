//! The next fire time where steps are of the calendar.
ghost use Rattle.std.specs.Prelude.{◌≡◌, ◌↔◌, ℕ, ◌+◌, ◌*◌, ◌<◌, ◌≤◌, ◌^◌, ℤ, pos, negsuc, ◌≤ℤ◌, ◌<ℤ◌, IsTrue, IfSome, None};
ghost use Rattle.qz_civil.specs.Least.{IsNext};
ghost use Rattle.qz_civil.specs.Timings.{is_span};
ghost use Rattle.qz_civil.specs.Zones.{bad_zone, local};
ghost use Rattle.qz_interval.specs.Clocks.{MomentBy, stretches};
ghost use Rattle.qz_interval.specs.Interval.{IsDated, IsLaterTurn, IsMoment};
ghost use Rattle.qz_interval.specs.Turns.{HasMoment, IsStep, IsTurnOf, turns_after};

use crate::clocks::Clock;
use crate::numbers::{month_number, place_from};
use crate::turns::{Count, Step, Turns};
use qz_civil::{END_DAY, LAST, LAST_DAY, Zone, before_end, date_of, to_unsigned};

// In ms.
const DAY: u64 = 86_400_000;

impl Turns {
    // The turns that begin with the clock.
    #[tactic(auto, using(qz_civil::proofs::DateLemmas::date_facts))]
    fn from_clock(step: Step, clock: u64) -> Turns
        requires clock { clock < END_DAY * 86400000 }
        requires step { IsStep step }
        ensures { (k m : ℕ) → IsTurnOf result k m ↔ turns_after step clock k m }
    {
        let (day, time) = (clock / DAY, clock % DAY);
        match step {
            Step::ByDays(step) => Turns {
                count: Count::Days,
                first: day,
                step,
                time,
            },
            Step::ByMonths(step) => {
                let date = date_of(day as u32);
                Turns {
                    count: Count::Months { day: date.day },
                    first: month_number(date),
                    step,
                    time,
                }
            }
        }
    }

    // The first place whose turn isn't on an earlier day, or in an earlier month, than the clock.
    fn place_on(self, clock: u64) -> u64
        requires { clock < END_DAY * 86400000 }
        ensures { (k m : ℕ) → k < result → IsTurnOf self k m → m ≤ clock }
    {
        place_from(self.first, self.step, self.count.number_of(clock / DAY))
    }

    // How many turns there are before the end of all timestamps.
    fn places(self) -> u64
        ensures before { (k : ℕ) → k < result → self.first + k * self.step < END_DAY }
        ensures late { (k m : ℕ) → result ≤ k → IsTurnOf self k m → END_DAY * 86400000 ≤ m }
    {
        place_from(self.first, self.step, self.count.end())
    }

    fn clock_at(self, place: u64) -> Option<u64>
        requires { self.first + place * self.step < END_DAY }
        ensures some { IfSome result (λ m. IsTurnOf self place m) }
        ensures bound { IfSome result (λ m. m < 86400000 * (LAST_DAY + 1)) }
        ensures none { result ≡ None → (m : ℕ) → IsTurnOf self place m → END_DAY * 86400000 ≤ m }
    {
        let day = self.count.day_of(self.first + place * self.step)?;
        Some(day * DAY + self.time)
    }

    // The moment of the turn, where it comes later than `after`, when the clock shows `now`.
    fn moment_after(self, place: u64, clock: Clock<'_>, now: u64, after: i64) -> Option<i64>
        requires place { self.first + place * self.step < END_DAY }
        requires now { now ≡ local (stretches clock) after }
        requires low { pos 0 ≤ℤ after }
        requires high { after ≤ℤ LAST }
        requires valid { bad_zone (stretches clock) ≡ None }
        ensures some { IfSome result (λ t. HasMoment (MomentBy clock.entry) self place t × (after <ℤ t)) }
        ensures none { result ≡ None → (t : ℤ) → HasMoment (MomentBy clock.entry) self place t → t ≤ℤ after }
    {
        match self.clock_at(place) {
            Some(local) => clock.moment_after(local, now, after),
            None => None,
        }
    }

    // The least moment after `after` of the turns that follow the first.
    fn next(self, clock: Clock<'_>, after: i64) -> Option<i64>
        requires low { pos 0 ≤ℤ after }
        requires high { after ≤ℤ LAST }
        requires valid { bad_zone (stretches clock) ≡ None }
        ensures { IsNext LAST (IsLaterTurn (MomentBy clock.entry) (IsTurnOf self)) after result }
    {
        let now = clock.at(after);
        for place in self.place_on(now).max(1)..self.places() {
            if let Some(ms) = self.moment_after(place, clock, now, after) {
                return Some(ms);
            }
        }
        None
    }
}

/// The next fire time of a trigger with steps of the calendar.
pub fn next_dated(
    start: i64,
    end: Option<i64>,
    step: Step,
    preserve: bool,
    skip: bool,
    zone: &Zone,
    after: i64,
) -> Option<i64>
    requires start { IsTrue (is_span start) }
    requires step { IsStep step }
    requires low { negsuc 0 ≤ℤ after }
    requires high { after ≤ℤ LAST }
    ensures { IsNext LAST (IsDated (IsMoment preserve skip zone.now start) (turns_after step (local zone.now start)) start end) after result }
{
    if after < start {
        return before_end(to_unsigned(start), end);
    }
    let clock = Clock::new(zone, start, preserve, skip);
    match Turns::from_clock(step, clock.at(start)).next(clock, after) {
        Some(ms) => before_end(to_unsigned(ms), end),
        None => None,
    }
}
