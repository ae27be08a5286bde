//! Tests of records: of the transactions of both stores and of rows, both ways.
#![tactic(auto)]

#[cfg(test)]
mod records;
