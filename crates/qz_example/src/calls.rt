//! Calls of the scheduler on stores in memory.
use crate::jobs::{Counter, OwnJobs, own_jobs};
use qz_disk::MemDisk;
use qz_io::{ListClock, MemSink, MemSource, Sink};
use qz_node::Job;
use qz_top::{Status, command};
use qz_types::{List, NoMemory, Text};
use std::alloc::Global;

/// What the clock reads: 2024-01-01T00:00:00Z, in ms since 1970-01-01T00:00:00Z.
const NOW: i64 = 1704067200000;

/// The disks of the two stores.
#[derive(Drop)]
pub struct Stores {
    pub triggers: MemDisk,
    pub states: MemDisk,
}

/// What a call is handed beside its disks and its output.
#[derive(Drop)]
struct Given {
    words: Vec<Text>,
    input: MemSource,
    clock: ListClock,
    jobs: OwnJobs,
}

/// Does what the words ask for, as the program `qz_sched` does with them. It gives the stores back where that ended well, and
/// else the status.
pub fn call<K: Sink>(
    alloc: Global,
    words: &[&str],
    input: &str,
    stores: Stores,
    out: &mut K,
    backups: &Counter,
) -> Result<Stores, Status> {
    match prepare(alloc, words, input, backups) {
        Ok(given) => call_given(alloc, given, stores, out),
        Err(_) => Err(Status::NoMemory),
    }
}

fn prepare(
    alloc: Global,
    words: &[&str],
    input: &str,
    backups: &Counter,
) -> Result<Given, NoMemory> {
    let bytes = Vec::from_slice(alloc, input.as_bytes())?;
    let readings = Vec::from_slice(alloc, &[NOW])?;
    Ok(Given {
        words: texts(alloc, words)?,
        input: MemSource::new(List::from_vec(bytes)),
        clock: ListClock::new(List::from_vec(readings)),
        jobs: own_jobs(alloc, backups)?,
    })
}

fn texts(alloc: Global, words: &[&str]) -> Result<Vec<Text>, NoMemory> {
    let mut texts = Vec::new(alloc);
    for word in words {
        texts.push(Text::from_str(alloc, word)?)?;
    }
    Ok(texts)
}

// The call itself. What it writes on `err` isn't read: the status says as much.
fn call_given<K: Sink>(
    alloc: Global,
    given: Given,
    stores: Stores,
    out: &mut K,
) -> Result<Stores, Status> {
    let Given {
        words,
        mut input,
        mut clock,
        jobs: OwnJobs { backup, reminder },
    } = given;
    let boxes: [Box<dyn Job + Send>; 2] = [backup, reminder];
    let Ok(mut jobs) = Vec::from_array(alloc, boxes) else {
        return Err(Status::NoMemory);
    };
    let mut err = MemSink::new(alloc);
    let Stores { triggers, states } = stores;
    let ended = command(
        alloc, &words, &mut input, out, &mut err, triggers, states, &mut clock, &mut jobs,
    );
    match ended.status {
        Status::Ok => Ok(Stores {
            triggers: ended.triggers,
            states: ended.states,
        }),
        status => Err(status),
    }
}
