//! A node's turns, and the executions of its jobs.
mod executing;
mod hub;
mod jobs;
mod rows;
mod turns;
