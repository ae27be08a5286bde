//! The scheduler's plain data: rows, commands, replies and refusals, and lists of rows in the order of their keys.
#![tactic(auto)]

mod calendars;
mod commands;
mod errors;
mod fired;
mod groups;
mod jobs;
mod keys;
mod limits;
mod members;
mod owners;
mod replies;
mod sorted;
mod states;
mod stores;
mod triggers;
mod zones;

pub use calendars::CalendarRow;
pub use commands::{Actor, Code, Command, Entry};
pub use errors::{StepRefused, SubmitError};
pub use fired::{FiredRow, FiredState};
pub use groups::Group;
pub use jobs::JobRow;
pub use keys::Key;
pub use limits::{
    ACQUIRE_LIMIT, CALENDAR_LIMIT, CHAIN_LIMIT, FIRED_LIMIT, FIRST_THRESHOLD, GROUP_LIMIT,
    INTERVAL_LIMIT, JOB_GROUP_LIMIT, JOB_LIMIT, MEMBER_LIMIT, MISFIRE_LIMIT, NODE_LIMIT,
    NUMBER_LIMIT, PAYLOAD_LIMIT, STATE_LIMIT, TIMES_LIMIT, TRIGGER_LIMIT, ZONE_LIMIT, limits_are,
};
pub use members::MemberRow;
pub use owners::Owner;
pub use qz_civil::{
    CalendarKind, Failed, Kind, LAST, LONGEST, List, NAME_LIMIT, NoMemory, Stretch, Text, Timing,
    Unit, VERSION_ONE_LAST,
};
pub use replies::{MovedRow, Refusal, Reply, Taken};
pub use sorted::{Keyed, find, insert, place};
pub use states::{Evidence, StateCommand, StateEntry, StateRow};
pub use stores::Store;
pub use triggers::{TriggerRow, TriggerSpec, TriggerState};
pub use zones::ZoneRow;
