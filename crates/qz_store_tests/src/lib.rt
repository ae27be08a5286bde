//! Tests of the crates of stores, of what no worked row can show: disks that fail or lose what wasn't synced, restarts, snapshots that are
//! cut off, and calls below the program.
#![tactic(auto)]

#[cfg(test)]
mod compacting;
#[cfg(test)]
mod cut_checkpoints;
#[cfg(test)]
mod disk;
#[cfg(test)]
mod entries;
#[cfg(test)]
mod files;
#[cfg(test)]
mod restarts;
#[cfg(test)]
mod snapshots;
#[cfg(test)]
mod states;
