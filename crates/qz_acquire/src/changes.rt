//! What is prepared of a command that isn't refused.
use qz_civil::Moved;
use qz_types::{FiredRow, JobRow, Key, List, MovedRow, Taken};

/// What a command does to the tables, with all that was copied for it. Times are in ms since 1970-01-01T00:00:00Z.
#[derive(Drop)]
pub enum Change {
    /// These rows are put in, and their triggers are acquired. The reply lists what was taken.
    Acquire {
        rows: List<FiredRow>,
        taken: List<Taken>,
    },
    /// The triggers are moved, one after the other. The reply lists the rows.
    Misfires {
        moves: List<Move>,
        rows: List<MovedRow>,
    },
    /// The row of this entry number is given back.
    Release {
        entry: u64,
    },
    /// An execution begins.
    Fire(Beginning),
}

/// What a misfire makes of the trigger of this key.
#[derive(Drop)]
pub struct Move {
    pub key: Key,
    pub moved: Moved,
}

/// An execution that begins, under an entry number and for a fire time. `next` is the fire time that comes after it.
#[derive(Drop)]
pub struct Beginning {
    pub entry: u64,
    pub scheduled: i64,
    pub next: Option<i64>,
    pub trigger: Key,
    pub job: JobRow,
}
