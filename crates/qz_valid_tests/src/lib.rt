//! Tests of the decision whether tables are valid.
#![tactic(auto)]

#[cfg(test)]
mod base;
#[cfg(test)]
mod cases;
#[cfg(test)]
mod edits;
#[cfg(test)]
mod executions;
#[cfg(test)]
mod names;
#[cfg(test)]
mod rows;
#[cfg(test)]
mod stored;
