//! Which local times a daily trigger has.
ghost use Rattle.std.specs.Prelude.{◌≡◌, ℕ, ◌&&◌, ◌+◌, ◌<◌, ◌≤◌, ◌^◌, IfSome, IfNone};
ghost use Rattle.qz_civil.specs.Least.{IsFirst, IsLeastIn, NoneIn};
ghost use Rattle.qz_daily.specs.Search.{has_day as is_chosen, is_second};
ghost use Rattle.qz_daily.specs.Timestamps as spec;
ghost use Rattle.qz_daily.specs.Timestamps.{is_time, pattern};

use qz_civil::{DAY_SECONDS, Span, Unit, first_occurrence, has_bit, weekday_of};

/// The times of a day, as seconds of the day, and the days.
#[derive(Clone, Copy)]
pub struct Pattern {
    pub step: u64,
    /// The first time.
    pub from: u64,
    /// No time is later.
    pub to: u64,
    /// Bit 0 is Sunday.
    pub days: u8,
}

#[tactic(auto, using(qz_civil::proofs::StepLemmas::even_step_most), unfolding(crate::specs::Timestamps::step_of))]
fn step_of(unit: Unit, every: u32) -> u64
    ensures value { result ≡ spec.step_of unit every }
    ensures bound { result < 2 ^ 62 }
{
    u64::from(every) * unit.seconds().unwrap_or(0)
}

impl Pattern {
    pub fn new(unit: Unit, every: u32, from: u32, to: u32, days: u8) -> Pattern
        ensures value { result ≡ pattern unit every from to days }
        ensures step { result.step < 2 ^ 62 }
        ensures from { result.from < 2 ^ 32 }
        ensures to { result.to < 2 ^ 32 }
    {
        Pattern {
            step: step_of(unit, every),
            from: u64::from(from),
            to: u64::from(to),
            days,
        }
    }

    // The first time of the day from `floor` on.
    fn first_time(&self, floor: u64) -> Option<u64>
        requires step { self.now.step < 2 ^ 62 }
        requires from { self.now.from < 2 ^ 32 }
        requires to { self.now.to < 2 ^ 32 }
        requires floor { floor < DAY_SECONDS }
        ensures first { IsFirst (is_time self.now) floor DAY_SECONDS result }
        ensures bound { IfSome result (λ time. time < DAY_SECONDS) }
    {
        let end = DAY_SECONDS.min(self.to + 1);
        match first_occurrence(self.from, self.step, floor) {
            Some(turn) if turn.moment < end => Some(turn.moment),
            _ => None,
        }
    }

    fn has_day(&self, day: u64) -> bool
        requires { day < 2 ^ 20 }
        ensures { result ≡ is_chosen self.now day }
    {
        has_bit(u64::from(self.days), u32::from(weekday_of(day as u32) - 1))
    }

    // The same on that day, counted from 1969-12-31 on.
    fn first_time_on(&self, day: u64, floor: u64) -> Option<u64>
        requires step { self.now.step < 2 ^ 62 }
        requires from { self.now.from < 2 ^ 32 }
        requires to { self.now.to < 2 ^ 32 }
        requires day { day < 2 ^ 20 }
        requires floor { floor < DAY_SECONDS }
        ensures first { IsFirst (λ time. is_chosen self.now day && is_time self.now time) floor DAY_SECONDS result }
        ensures bound { IfSome result (λ time. time < DAY_SECONDS) }
    {
        if self.has_day(day) {
            self.first_time(floor)
        } else {
            None
        }
    }

    // The first second of a local clock from `floor` on, counted from 1969-12-31T00:00:00 on.
    fn first_second(&self, floor: u64) -> Option<u64>
        requires step { self.now.step < 2 ^ 62 }
        requires from { self.now.from < 2 ^ 32 }
        requires to { self.now.to < 2 ^ 32 }
        requires floor { floor < 2 ^ 34 }
        ensures some { IfSome result (λ second. IsLeastIn (is_second self.now) floor (second + 1) second) }
        ensures none { IfNone result ((end : ℕ) → NoneIn (is_second self.now) floor end) }
    {
        let first = floor / DAY_SECONDS;
        // The weekday of the first day comes again.
        for day in first..first + 8 {
            let low = if day == first { floor % DAY_SECONDS } else { 0 };
            if let Some(time) = self.first_time_on(day, low) {
                return Some(day * DAY_SECONDS + time);
            }
        }
        None
    }

    /// The first second from `floor` on to the end of the span whose local time is in the pattern.
    pub fn first_in(&self, floor: u64, span: Span) -> Option<u64>
        requires step { self.now.step < 2 ^ 62 }
        requires from { self.now.from < 2 ^ 32 }
        requires to { self.now.to < 2 ^ 32 }
        requires floor { floor < 2 ^ 33 }
        requires shift { span.shift < 2 ^ 32 }
        requires end { span.end < 2 ^ 33 }
        ensures { IsFirst (λ s. is_second self.now (s + span.shift)) floor span.end result }
    {
        match self.first_second(floor + span.shift) {
            Some(second) if second < span.end + span.shift => Some(second - span.shift),
            _ => None,
        }
    }
}
