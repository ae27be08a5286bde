//! The reply of a prepared transaction, once more. Only some replies take memory, and their copies are made before the
//! transaction is done.
ghost use Rattle.std.specs.Prelude.{◌≡◌, IsTrue, IfOk};
ghost use Rattle.qz_types.specs.Tables.{SchedulerTables};
ghost use Rattle.qz_model.specs.Transaction.{transaction};
ghost use Rattle.qz_acquire.specs.Prepared.{committed};
ghost use Rattle.qz_plain.specs.Prepared.{Prepares};
ghost use Rattle.qz_plain.specs.Replies.{is_of_numbers, triggered, IsCopyOf, CopiesReply};

use crate::prepared::Prepared;
use qz_acquire::{Beginning, Change};
use qz_apply::recorded_moment;
use qz_tables::Tables;
use qz_types::{Entry, List, MovedRow, NoMemory, Reply, Taken};

/// The reply that the prepared transaction will give, or `None` where it has numbers alone.
#[tactic(auto, using(crate::proofs::ReplyCopies::schedule_copies, crate::proofs::ReplyCopies::acquire_copies, crate::proofs::ReplyCopies::recover_of_numbers, crate::proofs::ReplyCopies::complete_of_numbers))]
pub fn copy_reply(
    tables: &Tables,
    entry: &Entry,
    prepared: &Prepared,
) -> Result<Option<Reply>, NoMemory>
    requires { Prepares tables.now entry.now prepared.now }
    ensures { IfOk result (λ copy. CopiesReply copy (transaction tables.now.tables entry.now)) }
{
    let moment = recorded_moment(tables, entry.at);
    match prepared {
        Prepared::Schedule(change) => copy_triggered(moment, change),
        Prepared::Recover(_) => Ok(None),
        Prepared::Acquire(change) => copy_acquired(moment, change),
        Prepared::Complete(_) => Ok(None),
    }
}

// Of a client's commands, only TriggerNow has a reply that takes memory.
fn copy_triggered(moment: i64, change: &qz_schedule::Change) -> Result<Option<Reply>, NoMemory>
    ensures { IfOk result (λ copy. copy ≡ triggered moment change.now) }
{
    match change {
        qz_schedule::Change::Manual { row: _, key } => {
            let trigger = key.copy()?;
            Ok(Some(Reply::Triggered {
                trigger,
                next: moment,
            }))
        }
        _ => Ok(None),
    }
}

fn copy_acquired(moment: i64, change: &Change) -> Result<Option<Reply>, NoMemory>
    ensures { (T : SchedulerTables) → IfOk result (λ copy. CopiesReply copy (committed T moment change.now)) }
{
    match change {
        Change::Acquire { rows: _, taken } => Ok(Some(Reply::Acquired(copy_taken(taken)?))),
        Change::Misfires { moves: _, rows } => Ok(Some(Reply::Misfired(copy_moved(rows)?))),
        Change::Release { entry: _ } => Ok(None),
        Change::Fire(one) => Ok(Some(copy_fired(moment, one)?)),
    }
}

fn copy_taken(taken: &List<Taken>) -> Result<List<Taken>, NoMemory>
    ensures { IfOk result (λ copy. copy ≡ taken.now) }
{
    Ok(taken.clone()?)
}

fn copy_moved(rows: &List<MovedRow>) -> Result<List<MovedRow>, NoMemory>
    ensures { IfOk result (λ copy. copy ≡ rows.now) }
{
    Ok(rows.clone()?)
}

fn copy_fired(moment: i64, one: &Beginning) -> Result<Reply, NoMemory>
    ensures { IfOk result (λ copy. copy ≡ Reply.Fired one.now.entry one.now.scheduled moment one.now.next one.now.trigger one.now.job) }
{
    let trigger = one.trigger.copy()?;
    let job = one.job.copy()?;
    Ok(Reply::Fired {
        entry: one.entry,
        scheduled: one.scheduled,
        fired: moment,
        next: one.next,
        trigger,
        job,
    })
}

/// The reply once more: its copy, or its numbers. It takes no memory.
pub fn same_reply(copy: Option<Reply>, reply: &Reply) -> Reply
    requires { IsCopyOf copy reply.now }
    ensures { result ≡ reply.now }
{
    match copy {
        Some(copy) => copy,
        None => same_numbers(reply),
    }
}

fn same_numbers(reply: &Reply) -> Reply
    requires { IsTrue (is_of_numbers reply.now) }
    ensures { result ≡ reply.now }
{
    match reply {
        Reply::Done => Reply::Done,
        Reply::Added { next } => Reply::Added { next: *next },
        Reply::Deleted { triggers } => Reply::Deleted {
            triggers: *triggers,
        },
        Reply::Joined {
            epoch,
            executions,
            triggers,
        } => Reply::Joined {
            epoch: *epoch,
            executions: *executions,
            triggers: *triggers,
        },
        Reply::Completed { entry } => Reply::Completed { entry: *entry },
        Reply::Again { entry } => Reply::Again { entry: *entry },
        Reply::Recovered {
            executions,
            triggers,
        } => Reply::Recovered {
            executions: *executions,
            triggers: *triggers,
        },
        _ => unreachable!(),
    }
}
