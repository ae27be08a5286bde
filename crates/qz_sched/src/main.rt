//! The program `qz_sched`. Its stored run has the six lines of the documents as a script on stores that are there already, the
//! one of triggers with a job, and a bad line after them.
#![tactic(auto)]

use std::process::ExitCode;

fn main(rt: HostRuntime) -> ExitCode {
    qz_program::run(rt, &rt)
}
