//! Tests of the top call where a device fails, and of what else no worked row can show: a checkpoint after many transactions, a job that asks
//! again and again, and the texts of errors.
#![tactic(auto)]

#[cfg(test)]
mod behind;
#[cfg(test)]
mod calls;
#[cfg(test)]
mod cuts;
#[cfg(test)]
mod disks;
#[cfg(test)]
mod error_texts;
#[cfg(test)]
mod jobs;
#[cfg(test)]
mod streams;
