//! How long a name may be, how many rows a table may have, and how far its numbers go.
ghost use Rattle.std.specs.Prelude.{◌≡◌, ◌^◌, pos};

/// Bytes of a node's name, which has at least one.
pub const NODE_LIMIT: u64 = 120;
/// Bytes of a job's payload.
pub const PAYLOAD_LIMIT: u64 = 4096;

/// Stored jobs.
pub const JOB_LIMIT: u64 = 262144;
/// Stored triggers.
pub const TRIGGER_LIMIT: u64 = 1048576;
/// Stored calendars.
pub const CALENDAR_LIMIT: u64 = 4096;
/// Calendars in a chain: a trigger's calendar, that below it, and so on.
pub const CHAIN_LIMIT: u64 = 8;
/// Stored zones.
pub const ZONE_LIMIT: u64 = 4096;
/// Paused groups of triggers.
pub const GROUP_LIMIT: u64 = 4096;
/// Paused groups of jobs.
pub const JOB_GROUP_LIMIT: u64 = 4096;
/// Rows of acquired triggers and executions together.
pub const FIRED_LIMIT: u64 = 65536;
/// Members of the cluster.
pub const MEMBER_LIMIT: u64 = 256;
/// Rows of the state store.
pub const STATE_LIMIT: u64 = 256;

/// Triggers that one Acquire may ask for.
pub const ACQUIRE_LIMIT: u32 = 64;
/// Triggers that one Misfires moves.
pub const MISFIRE_LIMIT: u32 = 20;
/// How often a trigger can have fired; a greater count stays here.
pub const TIMES_LIMIT: u64 = 1 << 63;
/// The greatest next entry number and next epoch.
pub const NUMBER_LIMIT: u64 = 1 << 62;

/// The threshold of new tables: a trigger whose next time is further back than this is misfired. In ms.
pub const FIRST_THRESHOLD: i64 = 60000;
/// The greatest check-in interval and threshold, in ms: a day. Both are at least 1 ms.
pub const INTERVAL_LIMIT: i64 = 86400000;

/// The limits are these numbers. It does nothing: its contract says so, so that no edit of a constant goes unseen.
pub fn limits_are()
    ensures node { NODE_LIMIT ≡ 120 }
    ensures payload { PAYLOAD_LIMIT ≡ 4096 }
    ensures jobs { JOB_LIMIT ≡ 262144 }
    ensures triggers { TRIGGER_LIMIT ≡ 1048576 }
    ensures calendars { CALENDAR_LIMIT ≡ 4096 }
    ensures chain { CHAIN_LIMIT ≡ 8 }
    ensures zones { ZONE_LIMIT ≡ 4096 }
    ensures groups { GROUP_LIMIT ≡ 4096 }
    ensures job_groups { JOB_GROUP_LIMIT ≡ 4096 }
    ensures fired { FIRED_LIMIT ≡ 65536 }
    ensures members { MEMBER_LIMIT ≡ 256 }
    ensures states { STATE_LIMIT ≡ 256 }
    ensures acquire { ACQUIRE_LIMIT ≡ 64 }
    ensures misfires { MISFIRE_LIMIT ≡ 20 }
    ensures times { TIMES_LIMIT ≡ 2 ^ 63 }
    ensures numbers { NUMBER_LIMIT ≡ 2 ^ 62 }
    ensures threshold { FIRST_THRESHOLD ≡ pos 60000 }
    ensures interval { INTERVAL_LIMIT ≡ pos 86400000 }
{}
