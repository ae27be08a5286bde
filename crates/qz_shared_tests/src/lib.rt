//! Tests of a store that threads share: a small store in memory, two seats, and what each is answered.
#![tactic(auto)]

mod jobs;
#[cfg(test)]
mod seats;
