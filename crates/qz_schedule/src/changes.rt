//! What a command has ready before it is done.
use qz_types::{CalendarRow, JobRow, Key, Text, TriggerRow, ZoneRow};

/// What was copied and computed for a command, so that nothing can fail while it is done.
#[derive(Drop)]
pub enum Change {
    /// The command copies nothing.
    InPlace,
    /// The job that an AddJob stores.
    Job(JobRow),
    /// The trigger that an AddTrigger stores.
    Trigger(TriggerRow),
    /// The group that a PauseGroup pauses.
    Group(Text),
    /// The group that a PauseJobGroup pauses.
    JobGroup(Text),
    /// The calendar that an AddCalendar stores.
    Calendar(CalendarRow),
    /// The zone that an AddZone stores.
    Zone(ZoneRow),
    /// The trigger that a TriggerNow stores, and its key for the reply.
    Manual { row: TriggerRow, key: Key },
}
