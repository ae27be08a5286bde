//! Tests of streams: a store in any pieces, each bad place, and a store as long as one may be.
#![tactic(auto)]

#[cfg(test)]
mod streams;
