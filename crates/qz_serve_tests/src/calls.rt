//! Calls of `serve` over objects in memory.
use qz_disk::{Disk, MemDisk};
use qz_io::{ListClock, MemSink, MemSource};
use qz_node::{Job, ListJob};
use qz_rounds::SharedClock;
use qz_serve::{Gate, Served, serve};
use qz_top::{Ended, Status, command};
use qz_types::{List, Text};
use std::alloc::{AllocError, Global};
use std::sync::Wait;
use std::thread::Threads;

/// 2024-01-01T00:00:00Z, in ms.
pub const FIRST: i64 = 1704067200000;

fn texts(alloc: Global, words: &[&str]) -> Result<Vec<Text>, AllocError> {
    let mut texts = Vec::new(alloc);
    for word in words {
        texts.push(Text::from_str(alloc, word)?)?;
    }
    Ok(texts)
}

/// A job of the class `ok`, which is done at each call and tells its calls.
fn ok_job(alloc: Global) -> Result<Box<ListJob>, AllocError> {
    let class = Text::from_str(alloc, "ok")?;
    let codes = List::from_vec(Vec::new(alloc));
    Ok(Box::new(alloc, ListJob::new(alloc, class, codes))?)
}

// Makes a call of the other words, whose clock reads the first moment of 2024, and gives its disks where it was done.
fn called(
    alloc: Global,
    words: &[&str],
    input: &str,
    disks: (MemDisk, MemDisk),
) -> Option<(MemDisk, MemDisk)> {
    let words = texts(alloc, words).ok()?;
    let bytes = Vec::from_slice(alloc, input.as_bytes()).ok()?;
    let readings = Vec::from_slice(alloc, &[FIRST]).ok()?;
    let mut source = MemSource::new(List::from_vec(bytes));
    let mut clock = ListClock::new(List::from_vec(readings));
    let mut out = MemSink::new(alloc);
    let mut err = MemSink::new(alloc);
    let mut jobs = Vec::new(alloc);
    let (triggers, states) = disks;
    let ended = command(
        alloc,
        &words,
        &mut source,
        &mut out,
        &mut err,
        triggers,
        states,
        &mut clock,
        &mut jobs,
    );
    drop((words, source, clock, out, err, jobs));
    let Ended {
        status,
        triggers,
        states,
        trail: _,
    } = ended;
    if status == Status::Ok {
        Some((triggers, states))
    } else {
        None
    }
}

/// New stores on which this script was done.
pub fn stored(alloc: Global, script: &str) -> Option<(MemDisk, MemDisk)> {
    let disks = (MemDisk::new(alloc), MemDisk::new(alloc));
    let disks = called(alloc, &["init"], "", disks)?;
    called(alloc, &["script"], script, disks)
}

/// What a call of `serve` came to, and what it wrote.
#[derive(Drop)]
pub struct Told {
    pub status: Status,
    pub out: MemSink,
    pub err: MemSink,
}

/// Lets nodes work on these disks, of which each has one job, of the class `ok`.
pub fn served<R: Threads + Wait + Sync, D: Disk + Send, C: SharedClock + Sync, G: Gate + Sync>(
    rt: &R,
    alloc: Global,
    words: &[&str],
    disks: (D, D),
    clock: &C,
    gate: &G,
) -> Option<Told> {
    let words = texts(alloc, words).ok()?;
    let first: [Box<dyn Job + Send>; 1] = [ok_job(alloc).ok()?];
    let second: [Box<dyn Job + Send>; 1] = [ok_job(alloc).ok()?];
    let mut jobs = Vec::new(alloc);
    jobs.push(Vec::from_array(alloc, first).ok()?).ok()?;
    jobs.push(Vec::from_array(alloc, second).ok()?).ok()?;
    let mut out = MemSink::new(alloc);
    let mut err = MemSink::new(alloc);
    let (triggers, states) = disks;
    let Served { status, disks } = serve(
        rt, alloc, &words, &mut out, &mut err, triggers, states, clock, &mut jobs, gate,
    );
    drop((words, disks, jobs));
    Some(Told { status, out, err })
}

impl Told {
    /// What was written on the output.
    pub fn text(&self) -> &str {
        std::str::from_utf8(self.out.bytes()).unwrap_or("")
    }

    /// How many lines of what was written tell that something was fired.
    pub fn firings(&self) -> usize {
        let mut count = 0usize;
        for line in self.text().split('\n') {
            if line.contains(" fire fired ") {
                count = count.saturating_add(1);
            }
        }
        count
    }

    /// How many lines of a board come before all others. There is none where a line of a board comes after another line, or
    /// shows fewer entries than one before it.
    pub fn looks(&self) -> Option<usize> {
        let mut count = 0usize;
        let mut shown = 0u64;
        let mut others = false;
        for line in self.text().split('\n') {
            match line.strip_prefix("board ") {
                Some(rest) => {
                    let entries = rest.split(' ').next()?.parse::<u64>().ok()?;
                    if others || entries < shown {
                        return None;
                    }
                    shown = entries;
                    count = count.saturating_add(1);
                }
                None => others = true,
            }
        }
        Some(count)
    }
}
