//! What a transaction has ready before it changes the tables.

/// The change of a transaction, with the memory that it takes, by the crate of its command.
#[derive(Drop)]
pub enum Prepared {
    Schedule(qz_schedule::Change),
    Recover(qz_recover::Change),
    Acquire(qz_acquire::Change),
    Complete(qz_complete::Change),
}
