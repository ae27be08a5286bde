//! Tests of the tables of the trigger store.
#![tactic(auto)]

#[cfg(test)]
mod bulk;
#[cfg(test)]
mod cases;
#[cfg(test)]
mod fired;
#[cfg(test)]
mod job_groups;
#[cfg(test)]
mod keys;
#[cfg(test)]
mod numbers;
#[cfg(test)]
mod triggers;
