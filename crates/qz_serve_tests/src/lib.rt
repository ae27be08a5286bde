//! Tests of nodes that work in threads. That they work at once is shown by tests alone.
#![tactic(auto)]

#[cfg(test)]
mod calls;
#[cfg(test)]
mod clocks;
#[cfg(test)]
mod disks;
#[cfg(test)]
mod gates;
#[cfg(test)]
mod rounds;
#[cfg(test)]
mod serving;
