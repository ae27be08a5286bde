//! Changes of triggers, fired rows and calendars in place, which take no memory.
ghost use Rattle.std.specs.Prelude.{◌≡◌, refl, IsTrue, ⊤};
ghost use Rattle.qz_civil.specs.Fields.{is_year_set};
ghost use Rattle.qz_types.specs.Changes.{after_fire, begun, moved_trigger, counting};
ghost use Rattle.qz_types.specs.Rows.{TriggerData, is_trigger};
ghost use Rattle.qz_types.specs.States.{paused, resumed, blocked, unblocked};
ghost use Rattle.qz_tables.specs.Changes.{changed, trigger_edited, IsFit};
ghost use Rattle.qz_tables.specs.Years.{with_years, kind_with_years, calendar_kind_with_years, calendar_with_years};
ghost use Rattle.qz_tables.specs.declared.edits.TriggerEdit.TheVariants.{State, Fire, Move, Years};

use crate::indexed::Edit;
use qz_civil::{CalendarKind, CronFields, Kind, Moved};
use qz_types::{CalendarRow, FiredRow, FiredState, TIMES_LIMIT, TriggerRow, TriggerState};
use std::cmp::Ordering;

/// What a command makes of a trigger's state.
#[derive(Clone, Copy)]
pub enum StateChange {
    Pause,
    Resume,
    /// An execution of its job excludes all others.
    Block,
    /// That execution has ended.
    Unblock,
    Set(TriggerState),
}

impl StateChange {
    fn apply(self, state: TriggerState) -> TriggerState
        ensures { result ≡ changed self state }
    {
        match self {
            StateChange::Pause => paused(state),
            StateChange::Resume => resumed(state),
            StateChange::Block => blocked(state),
            StateChange::Unblock => unblocked(state),
            StateChange::Set(now) => now,
        }
    }
}

fn paused(state: TriggerState) -> TriggerState
    ensures { result ≡ paused state }
{
    match state {
        TriggerState::Waiting | TriggerState::Acquired => TriggerState::Paused,
        TriggerState::Blocked => TriggerState::PausedBlocked,
        other => other,
    }
}

fn resumed(state: TriggerState) -> TriggerState
    ensures { result ≡ resumed state }
{
    match state {
        TriggerState::Paused => TriggerState::Waiting,
        TriggerState::PausedBlocked => TriggerState::Blocked,
        other => other,
    }
}

fn blocked(state: TriggerState) -> TriggerState
    ensures { result ≡ blocked state }
{
    match state {
        TriggerState::Waiting | TriggerState::Acquired => TriggerState::Blocked,
        TriggerState::Paused => TriggerState::PausedBlocked,
        other => other,
    }
}

fn unblocked(state: TriggerState) -> TriggerState
    ensures { result ≡ unblocked state }
{
    match state {
        TriggerState::Blocked => TriggerState::Waiting,
        TriggerState::PausedBlocked => TriggerState::Paused,
        other => other,
    }
}

/// A change of a trigger that keeps its key and its job.
#[derive(Clone, Copy)]
pub enum TriggerEdit {
    /// Its state changes so.
    State(StateChange),
    /// It fired, and has this next time, in ms since 1970-01-01T00:00:00Z, and this state.
    Fire {
        next: Option<i64>,
        state: TriggerState,
    },
    /// A misfire makes this of it.
    Move(Moved),
    /// The years of its cron fields change so.
    Years(YearChange),
}

impl Edit<TriggerRow> for TriggerEdit {
    ghost edited = { trigger_edited };

    ghost IsFit = { IsFit };

    fn edit(&self, row: &mut TriggerRow) {
        match *self {
            TriggerEdit::State(change) => row.state = change.apply(row.state),
            TriggerEdit::Fire { next, state } => fire(row, next, state),
            TriggerEdit::Move(moved) => move_to(row, moved),
            TriggerEdit::Years(change) => change.change_kind(&mut row.spec.timing.kind),
        }
    }

    ghost keeps_id = { λ e r. elim e as (λ e. (trigger_edited e r).spec.key ≡ r.spec.key) [ State change ↦ refl | Fire next state ↦ refl | Move moved ↦ refl | Years change ↦ refl ] };
}

fn fire(row: &mut TriggerRow, next: Option<i64>, state: TriggerState)
    ensures { row.new ≡ after_fire next state row.old }
{
    row.prev = row.next;
    row.next = next;
    row.times = (row.times + 1).min(TIMES_LIMIT);
    row.state = state;
}

fn move_to(row: &mut TriggerRow, moved: Moved)
    requires { IsTrue (is_trigger (moved_trigger moved row.old)) }
    ensures { row.new ≡ moved_trigger moved row.old }
{
    set_count(&mut row.spec.timing.kind, moved.count);
    row.spec.timing.start = moved.start;
    row.next = moved.next;
    row.times = moved.times;
    if moved.next.is_none() {
        row.state = TriggerState::Complete;
    }
}

// Gives a simple kind this count.
fn set_count(kind: &mut Kind, count: i64)
    ensures { kind.new ≡ counting count kind.old }
{
    if let Kind::Simple { count: old, .. } = kind {
        *old = count;
    }
}

/// Cron fields that have just the old years get the new ones. Both are sets as those of `CronFields::years`.
#[derive(Clone, Copy)]
pub struct YearChange {
    pub old: [u64; 4],
    pub new: [u64; 4],
}

impl YearChange {
    // Changes the years of cron fields.
    #[tactic(auto, unfolding(crate::specs::Years::with_years, qz_types::specs::Words::same_text))]
    fn change_fields(&self, fields: &mut CronFields)
        ensures { fields.new ≡ with_years self.now fields.old }
    {
        if fields.years.cmp(&self.old) == Ordering::Equal {
            fields.years = self.new;
        }
    }

    // Changes the years of a cron trigger.
    fn change_kind(&self, kind: &mut Kind)
        ensures { kind.new ≡ kind_with_years self.now kind.old }
    {
        if let Kind::Cron { fields, .. } = kind {
            self.change_fields(fields);
        }
    }

    // Changes the years of a cron calendar.
    fn change_calendar_kind(&self, kind: &mut CalendarKind)
        ensures { kind.new ≡ calendar_kind_with_years self.now kind.old }
    {
        if let CalendarKind::Cron { fields } = kind {
            self.change_fields(fields);
        }
    }
}

impl Edit<CalendarRow> for YearChange {
    ghost edited = { calendar_with_years };

    ghost IsFit = { λ e r. IsTrue (is_year_set e.new) };

    fn edit(&self, row: &mut CalendarRow) {
        self.change_calendar_kind(&mut row.kind);
    }

    ghost keeps_id = { λ e r. refl };
}

/// An execution begins.
#[derive(Clone, Copy)]
pub struct Begin {
    pub moment: i64,
    pub no_concurrent: bool,
    pub requests_recovery: bool,
}

impl Edit<FiredRow> for Begin {
    ghost edited = { λ e. begun e.moment e.no_concurrent e.requests_recovery };

    ghost IsFit = { λ e r. ⊤ };

    fn edit(&self, row: &mut FiredRow) {
        row.state = FiredState::Executing;
        row.fired = Some(self.moment);
        row.no_concurrent = self.no_concurrent;
        row.requests_recovery = self.requests_recovery;
    }

    ghost keeps_id = { λ e r. refl };
}
