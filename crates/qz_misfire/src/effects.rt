//! What a misfire instruction asks for.
ghost use Rattle.std.specs.Prelude.{◌≡◌};
ghost use Rattle.qz_misfire.specs.Effects as spec;

use qz_civil::Kind;

/// What is done about a firing that was missed.
#[derive(Clone, Copy)]
pub(crate) enum Effect {
    /// The trigger fires now, and its schedule stays.
    FireNow,
    /// The schedule begins anew now, with the firings that are left.
    Restart,
    /// The schedule begins anew now, with the firings that are left after those that were missed.
    RestartWithoutMissed,
    /// The trigger goes on with its schedule, and what was missed counts as fired.
    ResumeCountingMissed,
    /// The trigger goes on with its schedule.
    Resume,
}

pub(crate) fn effect_of(kind: &Kind, instruction: i8) -> Effect
    ensures { result ≡ spec.effect_of kind.now instruction }
{
    match kind {
        Kind::Simple { interval: _, count } => simple_effect(*count, instruction),
        _ => other_effect(instruction),
    }
}

#[tactic(auto, unfolding(crate::specs::Effects::simple_effect))]
fn simple_effect(count: i64, instruction: i8) -> Effect
    ensures { result ≡ spec.simple_effect count instruction }
{
    match instruction {
        0 => smart_effect(count),
        1 => if count == 0 {
            Effect::FireNow
        } else {
            Effect::RestartWithoutMissed
        },
        2 => Effect::Restart,
        3 => Effect::RestartWithoutMissed,
        4 => Effect::ResumeCountingMissed,
        _ => Effect::Resume,
    }
}

#[tactic(auto, unfolding(crate::specs::Effects::smart_effect))]
fn smart_effect(count: i64) -> Effect
    ensures { result ≡ spec.smart_effect count }
{
    match count {
        0 => Effect::FireNow,
        -1 => Effect::ResumeCountingMissed,
        _ => Effect::Restart,
    }
}

#[tactic(auto, unfolding(crate::specs::Effects::other_effect))]
fn other_effect(instruction: i8) -> Effect
    ensures { result ≡ spec.other_effect instruction }
{
    if instruction == 2 {
        Effect::Resume
    } else {
        Effect::FireNow
    }
}

/// Whether a firing at that time would come after the end.
pub(crate) fn is_over(kind: &Kind, end: Option<i64>, now: i64) -> bool
    ensures { result ≡ spec.is_over kind.now end now }
{
    let Some(end) = end else {
        return false;
    };
    match kind {
        Kind::Cron { fields: _, zone: _ } => end < now,
        _ => end <= now,
    }
}

/// The count of a simple trigger, and 0 for the other kinds.
pub(crate) fn count_of(kind: &Kind) -> i64
    ensures { result ≡ spec.count_of kind.now }
{
    match kind {
        Kind::Simple { interval: _, count } => *count,
        _ => 0,
    }
}

/// The interval of a simple trigger in ms, and 0 for the other kinds.
pub(crate) fn interval_of(kind: &Kind) -> i64
    ensures { result ≡ spec.interval_of kind.now }
{
    match kind {
        Kind::Simple { interval, count: _ } => *interval,
        _ => 0,
    }
}
