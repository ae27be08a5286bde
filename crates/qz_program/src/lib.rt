//! What the program `qz_sched` does: the top calls over standard input and output, two files and the system's clock.
#![tactic(auto)]

mod clocks;
mod help;
mod jobs;
mod words;

use clocks::SystemShared;
use help::{HELP, VERSION};
use jobs::{OwnJobs, own_jobs};
use qz_disk::{FileDisk, SystemFile};
use qz_io::{RealClock, Sink, StdSink, StdSource, write_all};
use qz_node::{Job, Jobs};
use qz_serve::{OpenGate, serve};
use qz_tell::history;
use qz_top::{Status, command};
use qz_types::{NoMemory, Text};
use qz_words::NODE_LIMIT;
use std::process::ExitCode;
use std::rt::HostRuntime;
use std::sync::Wait;
use std::thread::Threads;
use words::read_words;

/// The files of the two stores, in the current folder.
const TRIGGERS: &str = "qz-triggers.store";

const STATES: &str = "qz-states.store";

/// Does what the words of the command line ask for. A `main` calls it with its runtime, once by value and once as the handle that
/// starts threads, and returns its exit status.
pub fn run<R: Threads + Wait + Sync>(rt: HostRuntime, handle: &R) -> ExitCode {
    let mut out = StdSink::new(rt.stdout());
    let mut err = StdSink::new(rt.stderr());
    let status = match read_words(rt.alloc(), &rt) {
        Ok(words) => match text_of(&words) {
            Some(text) => print(text, &mut out, &mut err),
            None => work(rt, handle, &words, &mut out, &mut err),
        },
        Err(_) => starve(&mut err),
    };
    ExitCode::from(status.exit_number())
}

// The text on the program itself, if the only word asks for it.
fn text_of(words: &[Text]) -> Option<&'static str> {
    match words {
        [word] => match word.as_str() {
            "--help" => Some(HELP),
            "--version" => Some(VERSION),
            _ => None,
        },
        _ => None,
    }
}

fn print<K: Sink, E: Sink>(text: &str, out: &mut K, err: &mut E) -> Status {
    let status = match write_all(out, text.as_bytes()) {
        Ok(()) => Status::Ok,
        Err(_) => Status::WriteFault,
    };
    qz_top::report(status, err);
    status
}

fn starve<E: Sink>(err: &mut E) -> Status {
    qz_top::report(Status::NoMemory, err);
    Status::NoMemory
}

// One of the top calls over real objects.
fn work<R: Threads + Wait + Sync, K: Sink, E: Sink>(
    rt: HostRuntime,
    handle: &R,
    words: &[Text],
    out: &mut K,
    err: &mut E,
) -> Status {
    if begins_with(words, "serve") {
        return call_serve(rt, handle, words, out, err);
    }
    if begins_with(words, "history") {
        return call_history(rt, words, out, err);
    }
    match prepare(rt) {
        Ok(prepared) => call(rt, prepared, words, out, err),
        Err(_) => starve(err),
    }
}

// Whether this is the first word.
fn begins_with(words: &[Text], first: &str) -> bool {
    match words.first() {
        Some(word) => word.as_str() == first,
        None => false,
    }
}

// `history`, on the two files.
fn call_history<K: Sink, E: Sink>(
    rt: HostRuntime,
    words: &[Text],
    out: &mut K,
    err: &mut E,
) -> Status {
    let Ok((triggers, states)) = paths(rt) else {
        return starve(err);
    };
    let told = history(
        rt.alloc(),
        words,
        out,
        err,
        FileDisk::new(SystemFile::new(rt, triggers)),
        FileDisk::new(SystemFile::new(rt, states)),
    );
    told.status
}

// What a call needs beside its words.
#[derive(Drop)]
struct Prepared {
    triggers: Text,
    states: Text,
    jobs: OwnJobs,
}

fn prepare(rt: HostRuntime) -> Result<Prepared, NoMemory> {
    let (triggers, states) = paths(rt)?;
    Ok(Prepared {
        triggers,
        states,
        jobs: own_jobs(rt.alloc())?,
    })
}

// The files are opened at the first call on them.
fn call<K: Sink, E: Sink>(
    rt: HostRuntime,
    prepared: Prepared,
    words: &[Text],
    out: &mut K,
    err: &mut E,
) -> Status {
    let Prepared {
        triggers,
        states,
        jobs,
    } = prepared;
    let OwnJobs {
        ok,
        fail,
        last,
        again,
    } = jobs;
    let boxes: [Box<dyn Job + Send>; 4] = [ok, fail, last, again];
    let Ok(mut jobs) = Vec::from_array(rt.alloc(), boxes) else {
        return starve(err);
    };
    let mut input = StdSource::new(rt.reader());
    let mut clock = RealClock::new(&rt);
    let ended = command(
        rt.alloc(),
        words,
        &mut input,
        out,
        err,
        FileDisk::new(SystemFile::new(rt, triggers)),
        FileDisk::new(SystemFile::new(rt, states)),
        &mut clock,
        &mut jobs,
    );
    ended.status
}

// `serve`, with a list of the jobs for each node that it may have.
fn call_serve<R: Threads + Wait + Sync, K: Sink, E: Sink>(
    rt: HostRuntime,
    handle: &R,
    words: &[Text],
    out: &mut K,
    err: &mut E,
) -> Status {
    let Ok((triggers, states)) = paths(rt) else {
        return starve(err);
    };
    let mut jobs: Vec<Jobs> = Vec::new(rt.alloc());
    for _ in 0..NODE_LIMIT {
        let Ok(own) = own_jobs(rt.alloc()) else {
            return starve(err);
        };
        let OwnJobs {
            ok,
            fail,
            last,
            again,
        } = own;
        let boxes: [Box<dyn Job + Send>; 4] = [ok, fail, last, again];
        let Ok(list) = Vec::from_array(rt.alloc(), boxes) else {
            return starve(err);
        };
        if jobs.push(list).is_err() {
            return starve(err);
        }
    }
    let served = serve(
        handle,
        rt.alloc(),
        words,
        out,
        err,
        FileDisk::new(SystemFile::new(rt, triggers)),
        FileDisk::new(SystemFile::new(rt, states)),
        &SystemShared::new(rt),
        &mut jobs,
        &OpenGate,
    );
    served.status
}

fn paths(rt: HostRuntime) -> Result<(Text, Text), NoMemory> {
    let triggers = Text::from_str(rt.alloc(), TRIGGERS)?;
    let states = Text::from_str(rt.alloc(), STATES)?;
    Ok((triggers, states))
}
