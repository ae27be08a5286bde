//! What is drawn for a job and its trigger.
ghost use Rattle.std.specs.Prelude.{◌≡◌, ◌<◌, IsTrue};
ghost use Rattle.qz_generator.specs.Choices.{choice_at, after_choice, is_choice, schedule_by, draws_by, is_schedule};
ghost use Rattle.qz_generator.specs.Draws.{after};

use crate::draws::Draws;

/// When a trigger fires.
#[derive(Clone, Copy, PartialEq, Eq, Debug)]
pub(crate) enum Schedule {
    /// Every so many minutes, 1 to 1440.
    Simple { minutes: u32 },
    /// Each day at this minute of this hour.
    Cron { minute: u32, hour: u32 },
    /// Every so many hours, 1 to 24.
    Interval { hours: u32 },
    /// Each day, every so many minutes of it, 1 to 720.
    Daily { minutes: u32 },
}

/// What is drawn for a job and its trigger.
#[derive(Clone, Copy, PartialEq, Eq, Debug)]
pub(crate) struct Choice {
    pub(crate) no_concurrent: bool,
    pub(crate) requests_recovery: bool,
    /// 1 to 9.
    pub(crate) priority: u32,
    pub(crate) schedule: Schedule,
}

impl Draws {
    /// What is drawn for the next job and its trigger.
    #[tactic(auto, unfolding(crate::specs::Choices::choice_at, crate::specs::Choices::after_choice))]
    pub(crate) fn choice(&mut self) -> Choice
        ensures value { result ≡ choice_at self.old.state }
        ensures state { self.new.state ≡ after_choice self.old.state }
        ensures valid { IsTrue (is_choice result) }
    {
        let no_concurrent = self.below(2) == 1;
        let requests_recovery = self.below(2) == 1;
        let priority = 1 + self.below(9);
        let kind = self.below(4);
        let schedule = self.schedule(kind);
        Choice {
            no_concurrent,
            requests_recovery,
            priority,
            schedule,
        }
    }

    /// The schedule of this kind: simple, cron, interval or daily, from 0.
    fn schedule(&mut self, kind: u32) -> Schedule
        requires { kind < 4 }
        ensures value { result ≡ schedule_by kind self.old.state }
        ensures state { self.new.state ≡ after (draws_by kind) self.old.state }
        ensures valid { IsTrue (is_schedule result) }
    {
        match kind {
            0 => Schedule::Simple {
                minutes: 1 + self.below(1440),
            },
            1 => {
                let minute = self.below(60);
                let hour = self.below(24);
                Schedule::Cron { minute, hour }
            }
            2 => Schedule::Interval {
                hours: 1 + self.below(24),
            },
            _ => Schedule::Daily {
                minutes: 1 + self.below(720),
            },
        }
    }
}
