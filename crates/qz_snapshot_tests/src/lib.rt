//! Tests of snapshots: their bytes, both ways.
#![tactic(auto)]

#[cfg(test)]
mod bases;
#[cfg(test)]
mod checkpoints;
#[cfg(test)]
mod heads;
#[cfg(test)]
mod parts;
#[cfg(test)]
mod rows;
