//! Tests of the lock: two seats in one thread, and two threads.
#![tactic(auto)]

#[cfg(test)]
mod numbers;
#[cfg(test)]
mod seats;
#[cfg(test)]
mod threads;
