//! The nodes of a run, on a virtual clock: what they do with the jobs that they are handed.
mod executing;
mod moments;
mod rounds;
mod working;

pub use working::run_nodes;
