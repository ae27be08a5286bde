//! Calls of the top call, over objects in memory.
use qz_civil::beside;
use qz_disk::{Disk, MemDisk};
use qz_io::{FaultSource, ListClock, MemSink, Sink};
use qz_node::{Job, ListJob};
use qz_top::{Ended, Status, command};
use qz_types::{Code, List, Text};
use std::alloc::{AllocError, Global};

fn bytes_of(alloc: Global, bytes: &[u8]) -> Result<List<u8>, AllocError> {
    Ok(List::from_vec(Vec::from_slice(alloc, bytes)?))
}

pub fn numbers(alloc: Global, items: &[u64]) -> Result<List<u64>, AllocError> {
    Ok(List::from_vec(Vec::from_slice(alloc, items)?))
}

/// A clock that always reads 2024-01-01T00:00:00Z.
fn clock(alloc: Global) -> Result<ListClock, AllocError> {
    let readings = Vec::from_slice(alloc, &[1704067200000i64])?;
    Ok(ListClock::new(List::from_vec(readings)))
}

/// What a call is given beside its disks and outputs.
#[derive(Drop)]
pub struct Given {
    pub words: Vec<Text>,
    pub input: FaultSource,
    pub clock: ListClock,
}

fn texts(alloc: Global, words: &[&str]) -> Result<Vec<Text>, AllocError> {
    let mut texts = Vec::new(alloc);
    for word in words {
        texts.push(Text::from_str(alloc, word)?)?;
    }
    Ok(texts)
}

// A job of the class `ok`, which gives these answers in turn, and then is done at each call.
fn ok_job(alloc: Global, answers: &[Code]) -> Result<Box<ListJob>, AllocError> {
    let class = Text::from_str(alloc, "ok")?;
    let (class, answers) = beside(class, answers.to_vec(alloc))?;
    match Box::new(alloc, ListJob::new(alloc, class, List::from_vec(answers))) {
        Ok(boxed) => Ok(boxed),
        Err(failed) => {
            drop(failed);
            Err(AllocError)
        }
    }
}

// An input of which these reads fail.
fn source(alloc: Global, input: &[u8], failing: &[u64]) -> Result<FaultSource, AllocError> {
    let bytes = bytes_of(alloc, input)?;
    let (bytes, failing) = beside(bytes, numbers(alloc, failing))?;
    Ok(FaultSource::new(bytes, failing))
}

fn assemble(
    alloc: Global,
    words: &[&str],
    input: &[u8],
    failing: &[u64],
) -> Result<Given, AllocError> {
    let words = texts(alloc, words)?;
    let (words, input) = beside(words, source(alloc, input, failing))?;
    let ((words, input), clock) = beside((words, input), clock(alloc))?;
    Ok(Given {
        words,
        input,
        clock,
    })
}

/// These words, an input of which these reads fail, and a job of the class `ok`, which gives these answers in turn, and then is done
/// at each call.
pub fn prepare(
    alloc: Global,
    words: &[&str],
    input: &[u8],
    failing: &[u64],
    job_answers: &[Code],
) -> Result<(Given, Box<ListJob>), AllocError> {
    let given = assemble(alloc, words, input, failing)?;
    beside(given, ok_job(alloc, job_answers))
}

/// What a call came to, and what it wrote.
#[derive(Drop)]
struct Called<D: Disk> {
    ended: Ended<D>,
    out: MemSink,
    err: MemSink,
}

/// A call that writes to this output, and what it says on the other one. The box of any job is made here, beside the top call: no
/// function hands one out.
pub fn call_into<K: Sink, D: Disk>(
    alloc: Global,
    given: Given,
    job: Box<ListJob>,
    out: &mut K,
    triggers: D,
    states: D,
) -> Option<(Ended<D>, MemSink)> {
    let mut given = given;
    let boxes: [Box<dyn Job + Send>; 1] = [job];
    let Ok(mut jobs) = Vec::from_array(alloc, boxes) else {
        drop((given, triggers, states));
        return None;
    };
    let mut err = MemSink::new(alloc);
    let ended = command(
        alloc,
        &given.words,
        &mut given.input,
        out,
        &mut err,
        triggers,
        states,
        &mut given.clock,
        &mut jobs,
    );
    drop((given, jobs));
    Some((ended, err))
}

fn call<D: Disk>(
    alloc: Global,
    given: Given,
    job: Box<ListJob>,
    triggers: D,
    states: D,
) -> Option<Called<D>> {
    let mut out = MemSink::new(alloc);
    match call_into(alloc, given, job, &mut out, triggers, states) {
        Some((ended, err)) => Some(Called { ended, out, err }),
        None => {
            drop(out);
            None
        }
    }
}

/// What a call is to write, and how it is to end.
#[derive(Clone, Copy)]
pub struct Wanted {
    pub replies: &'static str,
    pub error: &'static str,
    pub status: Status,
}

impl<D: Disk> Called<D> {
    // Whether all that was written was handed on: both sinks keep what they hold until a flush.
    fn is_handed_on(&self) -> bool {
        self.out.handed() == self.out.bytes() && self.err.handed() == self.err.bytes()
    }

    fn is(&self, wanted: &Wanted) -> bool {
        self.is_handed_on()
            && self.out.bytes() == wanted.replies.as_bytes()
            && self.err.bytes() == wanted.error.as_bytes()
            && self.ended.status == wanted.status
    }

    // The disks of a call that is right.
    fn disks(self, is_right: bool) -> Option<(D, D)> {
        let Called { ended, out, err } = self;
        drop((out, err));
        let Ended {
            status: _,
            triggers,
            states,
            trail: _,
        } = ended;
        if is_right {
            Some((triggers, states))
        } else {
            drop((triggers, states));
            None
        }
    }
}

/// The disks behind a call on these, if it is as wanted. Its one job gives these answers in turn.
pub fn left_by<D: Disk>(
    alloc: Global,
    disks: Option<(D, D)>,
    words: &[&str],
    input: &[u8],
    job_answers: &[Code],
    wanted: &Wanted,
) -> Option<(D, D)> {
    let (triggers, states) = disks?;
    let Ok((given, job)) = prepare(alloc, words, input, &[], job_answers) else {
        drop((triggers, states));
        return None;
    };
    let called = call(alloc, given, job, triggers, states)?;
    let is_right = called.is(wanted);
    called.disks(is_right)
}

/// The same, with a job that is done at each call.
pub fn left<D: Disk>(
    alloc: Global,
    disks: Option<(D, D)>,
    words: &[&str],
    input: &[u8],
    wanted: &Wanted,
) -> Option<(D, D)> {
    left_by(alloc, disks, words, input, &[], wanted)
}

/// The disks behind a call on these that ends well, whatever it writes.
pub fn done<D: Disk>(
    alloc: Global,
    disks: Option<(D, D)>,
    words: &[&str],
    input: &[u8],
) -> Option<(D, D)> {
    let (triggers, states) = disks?;
    let Ok((given, job)) = prepare(alloc, words, input, &[], &[]) else {
        drop((triggers, states));
        return None;
    };
    let called = call(alloc, given, job, triggers, states)?;
    let is_right = called.ended.status == Status::Ok;
    called.disks(is_right)
}

/// Whether a call on these disks is as wanted.
pub fn answers<D: Disk>(
    alloc: Global,
    disks: Option<(D, D)>,
    words: &[&str],
    input: &[u8],
    wanted: &Wanted,
) -> bool {
    let left = left(alloc, disks, words, input, wanted);
    let is_right = left.is_some();
    drop(left);
    is_right
}

pub const DONE: Wanted = Wanted {
    replies: "",
    error: "",
    status: Status::Ok,
};

/// Disks without a byte.
pub fn new_disks(alloc: Global) -> Option<(MemDisk, MemDisk)> {
    Some((MemDisk::new(alloc), MemDisk::new(alloc)))
}

/// The disks of new stores.
pub fn made(alloc: Global) -> Option<(MemDisk, MemDisk)> {
    let wanted = Wanted {
        replies: "created\n",
        ..DONE
    };
    left(alloc, new_disks(alloc), &["init"], b"", &wanted)
}

/// The disks of stores that this script filled.
pub fn filled(alloc: Global, script: &[u8], replies: &'static str) -> Option<(MemDisk, MemDisk)> {
    let wanted = Wanted { replies, ..DONE };
    left(alloc, made(alloc), &["script"], script, &wanted)
}
