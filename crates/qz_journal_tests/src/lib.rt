//! Tests of the journal: stores that are whole, damaged or cut, groups of payloads, openings of a tail, and slots.
#![tactic(auto)]

#[cfg(test)]
mod groups;
#[cfg(test)]
mod journal;
#[cfg(test)]
mod rows;
#[cfg(test)]
mod slots;
#[cfg(test)]
mod tails;
