//! A program that embeds the scheduler. It has two jobs of its own and both stores in memory, and two nodes work off a week of
//! them. Copy it, and put your jobs and your document in the place of these.
#![tactic(auto)]

mod calls;
mod jobs;
mod telling;

use calls::{Stores, call};
use jobs::{Counter, new_counter};
use qz_disk::MemDisk;
use qz_io::{MemSink, Sink, StdSink};
use qz_top::{Status, report};
use std::alloc::Global;
use std::process::ExitCode;
use telling::tell;

/// Two jobs and their three triggers.
const WEEK: &str = r#"{
"jobs":[
  {"name":"backup","class":"backup","durable":true},
  {"name":"reminder","class":"reminder"}],
"triggers":[
  {"name":"nightly","job":"backup","start":1704067200000,"kind":"cron","cron":"0 0 2 * * ?"},
  {"name":"reminder","job":"reminder","start":1704067200000,"kind":"cron","cron":"0 0 3 * * ?"},
  {"name":"sunday","job":"backup","start":1704067200000,"kind":"cron","cron":"0 0 4 ? * SUN"}]}"#;

fn main(rt: HostRuntime) -> ExitCode {
    let status = match week(rt.alloc(), &mut StdSink::new(rt.stdout())) {
        Ok(()) => Status::Ok,
        Err(status) => status,
    };
    report(status, &mut StdSink::new(rt.stderr()));
    ExitCode::from(status.exit_number())
}

// Makes the stores, loads the document, lets two nodes work from 1 January 2024 to the end of the 7th, and tells what that
// came to.
fn week<K: Sink>(alloc: Global, out: &mut K) -> Result<(), Status> {
    let backups = new_counter(alloc)?;
    let mut text = MemSink::new(alloc);
    let stores = Stores {
        triggers: MemDisk::new(alloc),
        states: MemDisk::new(alloc),
    };
    let stores = call(alloc, &["init"], "", stores, &mut text, &backups)?;
    let stores = call(alloc, &["load"], WEEK, stores, &mut text, &backups)?;
    let words = ["run", "2", "1704067200000", "1704671999999"];
    let _ = call(alloc, &words, "", stores, &mut text, &backups)?;
    tell(alloc, text.bytes(), &backups, out)
}
