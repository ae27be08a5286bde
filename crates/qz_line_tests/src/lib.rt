//! Tests of what no worked row can show of the crates of input and output, and of the node core: streams that fail or come in pieces,
//! what is wrong with words, texts that no call writes, a node's turns and the execution of jobs.
#![tactic(auto)]

#[cfg(test)]
mod io;
#[cfg(test)]
mod node;
#[cfg(test)]
mod rows;
#[cfg(test)]
mod texts;
#[cfg(test)]
mod words;
