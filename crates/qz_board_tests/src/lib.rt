//! Tests of the board: a writer and a reader in one thread, and in two.
#![tactic(auto)]

#[cfg(test)]
mod looks;
#[cfg(test)]
mod numbers;
#[cfg(test)]
mod threads;
