//! Replies and refusals of the trigger store.
ghost use Rattle.std.specs.Prelude.{◌≡◌};
ghost use Rattle.qz_types.specs.Refusals.{number_of};

use crate::{JobRow, Key, Owner};
use qz_civil::List;

/// A trigger that was acquired.
#[derive(Clone, Drop)]
pub struct Taken {
    pub entry: u64,
    pub trigger: Key,
    /// The fire time for which it was acquired, in ms since 1970-01-01T00:00:00Z.
    pub next: i64,
}

/// A trigger that was misfired and moved.
#[derive(Clone, Drop)]
pub struct MovedRow {
    pub trigger: Key,
    /// Its next fire time from then on, in ms since 1970-01-01T00:00:00Z.
    pub next: Option<i64>,
}

/// What an accepted transaction answers. Times are in ms since 1970-01-01T00:00:00Z.
#[derive(Clone, Drop)]
pub enum Reply {
    Done,
    /// A trigger was stored, with this next fire time.
    Added {
        next: i64,
    },
    /// A job was removed, with so many triggers.
    Deleted {
        triggers: u64,
    },
    /// This trigger was stored, to fire its job once.
    Triggered {
        trigger: Key,
        next: i64,
    },
    /// A node became a member under this epoch. The two counts are of the executions of its former self that were
    /// ended, and of the recovery triggers added for them.
    Joined {
        epoch: u64,
        executions: u64,
        triggers: u64,
    },
    /// In the order in which they were taken.
    Acquired(List<Taken>),
    /// An execution began, of this trigger and job.
    Fired {
        entry: u64,
        scheduled: i64,
        fired: i64,
        next: Option<i64>,
        trigger: Key,
        job: JobRow,
    },
    Completed {
        entry: u64,
    },
    /// The node executes the job once more, under the same entry number.
    Again {
        entry: u64,
    },
    /// In due order.
    Misfired(List<MovedRow>),
    /// A failed member's executions were ended, and recovery triggers were added for some of them: the two counts.
    Recovered {
        executions: u64,
        triggers: u64,
    },
}

/// Why a transaction was refused. A refusal changes nothing.
#[derive(Clone, Debug, Drop)]
pub enum Refusal {
    /// The actor isn't a member under its epoch. `live` is the epoch of the member of that name.
    Fenced { live: Option<u64> },
    /// The trigger's group is one in which the scheduler itself stores triggers: RECOVERING_JOBS or MANUAL_TRIGGERS.
    ReservedGroup,
    /// The job isn't stored.
    UnknownJob,
    /// The trigger isn't stored.
    UnknownTrigger,
    /// The calendar isn't stored, or not the one that is to be below it.
    UnknownCalendar,
    /// The zone isn't stored. `UTC` is known without a row where a zone is only named.
    UnknownZone,
    /// A job of that key is stored, and no replacement was asked for.
    JobExists,
    /// A trigger of that key is stored, and no replacement was asked for.
    TriggerExists,
    /// A calendar of that name is stored, and no replacement was asked for.
    CalendarExists,
    /// A zone of that name is stored. `UTC` counts as stored.
    ZoneExists,
    /// So many triggers and calendars name the calendar or zone; or so many executions of the node that leaves go on.
    InUse { by: u64 },
    /// The calendar would be below itself: it is at this place, from 0, in the chain that begins with the one to be below it.
    Circle { at: u64 },
    /// An execution of that job's key goes on under another `no_concurrent`. Of several the least entry number is given.
    FlagInUse { entry: u64 },
    /// The trigger has no fire time.
    NeverFires,
    /// No fired row has that entry number.
    UnknownEntry,
    /// The fired row is another member's.
    NotYours { owner: Owner },
    /// The execution of the fired row has begun.
    NotAcquired,
    /// The execution of the fired row hasn't begun.
    NotExecuting,
    /// The recorded moment lies before the trigger's next time, which is given in ms since 1970-01-01T00:00:00Z.
    Early { next: i64 },
    /// The node to be recovered isn't a member.
    NotMember,
    /// The node to be recovered checked in lately enough. It won't be late until this moment, in ms since
    /// 1970-01-01T00:00:00Z, has passed.
    StillFresh { until: i64 },
    /// A limit would be passed, which is `count`.
    TooMany { count: u64 },
    /// The node has no row in the state store.
    UnknownNode,
    /// The state store has as many rows as it may have.
    RowsFull,
    /// The node whose row is to be forgotten is a member.
    StillMember,
    /// The node has checked in since then: at `last`, in ms since 1970-01-01T00:00:00Z.
    Renewed { last: i64 },
    /// The store is one of format version 1, which takes no transaction but Upgrade.
    OldStore,
    /// The store is of format version 2 already.
    Current,
    /// The trigger's state isn't ERROR.
    NotInError,
}

impl Refusal {
    /// The number under which reply lines name it.
    pub fn number(&self) -> u8
        ensures { result ≡ number_of self.now }
    {
        match self {
            Refusal::Fenced { live: _ } => 1,
            Refusal::ReservedGroup => 2,
            Refusal::UnknownJob => 3,
            Refusal::UnknownTrigger => 4,
            Refusal::UnknownCalendar => 5,
            Refusal::UnknownZone => 6,
            Refusal::JobExists => 7,
            Refusal::TriggerExists => 8,
            Refusal::CalendarExists => 9,
            Refusal::ZoneExists => 10,
            Refusal::InUse { by: _ } => 11,
            Refusal::Circle { at: _ } => 12,
            Refusal::FlagInUse { entry: _ } => 13,
            Refusal::NeverFires => 14,
            Refusal::UnknownEntry => 15,
            Refusal::NotYours { owner: _ } => 16,
            Refusal::NotAcquired => 17,
            Refusal::NotExecuting => 18,
            Refusal::Early { next: _ } => 19,
            Refusal::NotMember => 20,
            Refusal::StillFresh { until: _ } => 21,
            Refusal::TooMany { count: _ } => 22,
            Refusal::UnknownNode => 23,
            Refusal::RowsFull => 24,
            Refusal::StillMember => 25,
            Refusal::Renewed { last: _ } => 26,
            Refusal::OldStore => 27,
            Refusal::Current => 28,
            Refusal::NotInError => 29,
        }
    }
}
