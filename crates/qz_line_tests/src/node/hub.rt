//! A hub that gives one answer.
ghost use Rattle.std.specs.Prelude.{◌≡◌, ◌≤◌, length, IfOk, Ok};
ghost use Rattle.qz_types.specs.declared.commands.Command.TheVariants as asks;
ghost use Rattle.qz_node.specs.Hubs.{IsReplyTo};

use super::rows::{T0, job, key};
use qz_civil::beside;
use qz_node::Hub;
use qz_types::{Code, Command, List, MovedRow, Refusal, Reply, SubmitError, Taken};
use std::alloc::{AllocError, Global};

/// What a node hears next. What is told of an entry is told of the one that was asked for.
#[derive(Clone, Copy, Debug)]
pub(super) enum Answer {
    /// One trigger was misfired, or none.
    Misfired { moved: bool },
    /// This entry was acquired, or none.
    Acquired(Option<u64>),
    Fired,
    Completed,
    Again,
    Fenced,
    /// Refused for another reason.
    Refused,
    /// The store failed.
    Fault,
    Executed(Code),
    Rested,
}

/// A hub that gives this answer where it is one to the command, and else a fault.
#[derive(Drop)]
pub(super) struct OneAnswer {
    pub(super) alloc: Global,
    pub(super) answer: Answer,
}

impl Hub for OneAnswer {
    ghost answers = { λ hub at command result after. Unit {0} };

    fn submit(&mut self, _at: i64, command: Command) -> Result<Reply, SubmitError> {
        let reply = answer_to(self.alloc, self.answer, &command);
        drop(command);
        reply
    }
}

fn answer_to(alloc: Global, answer: Answer, command: &Command) -> Result<Reply, SubmitError>
    ensures { IfOk result (IsReplyTo command.now) }
{
    match command {
        Command::Misfires => to_misfires(alloc, answer),
        Command::Acquire {
            no_later,
            window,
            max,
        } => to_acquire(alloc, answer, *no_later, *window, *max),
        Command::Fire { entry } => to_fire(alloc, answer, *entry),
        Command::Complete { entry, code } => to_complete(answer, *entry, *code),
        _ => Err(SubmitError::Fault),
    }
}

// What isn't answered by a reply.
fn failed(answer: Answer) -> SubmitError {
    match answer {
        Answer::Fenced => SubmitError::Refused(Refusal::Fenced { live: None }),
        Answer::Refused => SubmitError::Refused(Refusal::NotAcquired),
        _ => SubmitError::Fault,
    }
}

fn of_list<T: Drop>(list: Result<List<T>, AllocError>) -> Result<List<T>, SubmitError>
    ensures { IfOk result (λ rows. list ≡ Ok rows) }
{
    match list {
        Ok(list) => Ok(list),
        Err(_) => Err(SubmitError::NoMemory),
    }
}

fn moved_rows(alloc: Global, moved: bool) -> Result<List<MovedRow>, AllocError> {
    let mut rows = List::new(alloc);
    if moved {
        let trigger = key(alloc, "t")?;
        rows.push(MovedRow {
            trigger,
            next: None,
        })?;
    }
    Ok(rows)
}

fn to_misfires(alloc: Global, answer: Answer) -> Result<Reply, SubmitError>
    ensures { IfOk result (IsReplyTo asks.Misfires) }
{
    match answer {
        Answer::Misfired { moved } => Ok(Reply::Misfired(of_list(moved_rows(alloc, moved))?)),
        other => Err(failed(other)),
    }
}

fn taken_rows(alloc: Global, entry: Option<u64>, next: i64) -> Result<List<Taken>, AllocError>
    ensures { IfOk result (λ rows. length rows ≤ 1) }
{
    let mut rows = List::new(alloc);
    if let Some(entry) = entry {
        let trigger = key(alloc, "t")?;
        rows.push(Taken {
            entry,
            trigger,
            next,
        })?;
    }
    Ok(rows)
}

fn to_acquire(
    alloc: Global,
    answer: Answer,
    no_later: i64,
    window: i64,
    max: u32,
) -> Result<Reply, SubmitError>
    ensures { IfOk result (IsReplyTo (asks.Acquire no_later window max)) }
{
    match answer {
        Answer::Acquired(entry) if window == 0 && max == 1 => {
            Ok(Reply::Acquired(of_list(taken_rows(alloc, entry, no_later))?))
        }
        other => Err(failed(other)),
    }
}

fn fired(alloc: Global, entry: u64) -> Result<Reply, AllocError>
    ensures { IfOk result (IsReplyTo (asks.Fire entry)) }
{
    let job = job(alloc, "ok")?;
    let (job, trigger) = beside(job, key(alloc, "t"))?;
    Ok(Reply::Fired {
        entry,
        scheduled: T0,
        fired: T0,
        next: None,
        trigger,
        job,
    })
}

fn to_fire(alloc: Global, answer: Answer, entry: u64) -> Result<Reply, SubmitError>
    ensures { IfOk result (IsReplyTo (asks.Fire entry)) }
{
    match answer {
        Answer::Fired => match fired(alloc, entry) {
            Ok(reply) => Ok(reply),
            Err(_) => Err(SubmitError::NoMemory),
        },
        other => Err(failed(other)),
    }
}

fn to_complete(answer: Answer, entry: u64, code: Code) -> Result<Reply, SubmitError>
    ensures { IfOk result (IsReplyTo (asks.Complete entry code)) }
{
    match answer {
        Answer::Completed => Ok(Reply::Completed { entry }),
        Answer::Again if code == Code::ReExecuteJob => Ok(Reply::Again { entry }),
        other => Err(failed(other)),
    }
}
