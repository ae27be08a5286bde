//! Tests of pieces: rows are read back, and the first wrong payload is named.
#![tactic(auto)]

#[cfg(test)]
mod payloads;
