//! Tests of a board over a trigger store.
#![tactic(auto)]

#[cfg(test)]
mod entries;
#[cfg(test)]
mod looks;
