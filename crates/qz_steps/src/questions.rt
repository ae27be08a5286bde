//! What is asked of the stored rows, and what is answered.
use qz_types::{FiredRow, JobRow, Key, TriggerRow};

/// What is asked for. Groups and names have 1 to `NAME_LIMIT` bytes.
#[derive(Debug, Drop)]
pub enum Question {
    /// The job of this key.
    Job(Key),
    /// The trigger of this key.
    Trigger(Key),
    /// What a node acquired or executes under this entry number, with its job. Any number.
    Entry(u64),
    /// The next time of the first trigger that waits, in due order.
    Next,
}

/// What a question is answered. None is answered where no such row is stored, or no trigger waits.
#[derive(Drop)]
pub enum Shown {
    Job(Option<JobRow>),
    Trigger(Option<TriggerRow>),
    Entry(Option<ShownEntry>),
    /// In ms since 1970-01-01T00:00:00Z.
    Next(Option<i64>),
}

/// What a node acquired or executes.
#[derive(Drop)]
pub struct ShownEntry {
    pub row: FiredRow,
    /// Its job; None where it was deleted since the execution began.
    pub job: Option<JobRow>,
}
