//! Reply lines.
ghost use Rattle.std.specs.Prelude.{◌≡◌, ◌++◌, IfOk, OnOk, codes, string_bytes};
ghost use Rattle.std.specs.Fmt.{signed_decimal};
ghost use Rattle.std.specs.List.{flat_map};
ghost use Rattle.qz_report.specs.Optional.{next_text};
ghost use Rattle.qz_report.specs.Replies.{taken_text, all_taken_text, triggered_text, moved_text, all_moved_text, owner_text, ok_text, joined_text, recovery_text, fired_text, refusal_field, refusal_text, step_text, reply_text};

use crate::names::{push_key, push_name};
use crate::optional::Next;
use crate::rooms::{push_marked, push_room};
use crate::shown::push_shown;
use qz_steps::StepReply;
use qz_types::{Key, MovedRow, NoMemory, Owner, Refusal, Reply, Taken, Text};
use std::alloc::{AllocError, Global};
use std::fmt::Write;

/// Room for most lines, so that they take memory once.
const USUAL_LENGTH: usize = 64;

/// The line that a reply is printed as, with its line feed.
pub fn reply_line(alloc: Global, reply: &StepReply) -> Result<Text, NoMemory>
    ensures { IfOk result (λ text. text ≡ reply_text reply.now) }
{
    let mut text = String::with_capacity(alloc, USUAL_LENGTH)?;
    push_step(&mut text, reply)?;
    text.push('\n')?;
    Ok(Text::from_string(text))
}

fn push_step(text: &mut String, reply: &StepReply) -> Result<(), AllocError>
    ensures { OnOk result (string_bytes text.new ≡ string_bytes text.old ++ step_text reply.now) }
{
    match reply {
        StepReply::Ok(reply) => push_ok(text, reply),
        StepReply::Refused(refusal) => push_refusal(text, refusal),
        StepReply::Fault => text.push_str("fault"),
        StepReply::Closed => text.push_str("closed"),
        StepReply::Stopped => text.push_str("stopped"),
        StepReply::Restarted => text.push_str("restarted"),
        StepReply::Shown(shown) => push_shown(text, shown),
        StepReply::Marked(marked) => push_marked(text, *marked),
        StepReply::Room(room) => push_room(text, room),
    }
}

pub(crate) fn push_ok(text: &mut String, reply: &Reply) -> Result<(), AllocError>
    ensures { OnOk result (string_bytes text.new ≡ string_bytes text.old ++ ok_text reply.now) }
{
    match reply {
        Reply::Done => text.push_str("ok"),
        Reply::Added { next } => write!(text, "ok next {next}"),
        Reply::Joined {
            epoch,
            executions,
            triggers,
        } => push_joined(text, *epoch, *executions, *triggers),
        Reply::Acquired(taken) => {
            text.push_str("acquired")?;
            push_all_taken(text, taken.as_slice())
        }
        Reply::Fired {
            entry,
            scheduled,
            fired,
            next,
            trigger: _,
            job: _,
        } => push_fired(text, *entry, *scheduled, *fired, *next),
        Reply::Completed { entry } => write!(text, "completed {entry}"),
        Reply::Deleted { triggers } => write!(text, "deleted {triggers}"),
        Reply::Triggered { trigger, next } => push_triggered(text, trigger, *next),
        Reply::Again { entry } => write!(text, "again {entry}"),
        Reply::Misfired(rows) => {
            text.push_str("misfired")?;
            push_all_moved(text, rows.as_slice())
        }
        Reply::Recovered {
            executions,
            triggers,
        } => {
            text.push_str("recovered")?;
            push_recovery(text, *executions, *triggers)
        }
    }
}

/// What a join or a recovery did with the executions of the node that was.
fn push_recovery(text: &mut String, executions: u64, triggers: u64) -> Result<(), AllocError>
    ensures { OnOk result (string_bytes text.new ≡ string_bytes text.old ++ recovery_text executions triggers) }
{
    write!(text, " executions {executions} triggers {triggers}")
}

fn push_joined(
    text: &mut String,
    epoch: u64,
    executions: u64,
    triggers: u64,
) -> Result<(), AllocError>
    ensures { OnOk result (string_bytes text.new ≡ string_bytes text.old ++ joined_text epoch executions triggers) }
{
    write!(text, "joined {epoch}")?;
    push_recovery(text, executions, triggers)
}

fn push_taken(text: &mut String, taken: &Taken) -> Result<(), AllocError>
    ensures { OnOk result (string_bytes text.new ≡ string_bytes text.old ++ taken_text taken.now) }
{
    write!(text, " {} ", taken.entry)?;
    push_key(text, &taken.trigger)?;
    write!(text, " {}", taken.next)
}

fn push_each_taken(text: &mut String, taken: &[Taken]) -> Result<(), AllocError>
    ensures { OnOk result (string_bytes text.new ≡ string_bytes text.old ++ flat_map taken_text taken.now) }
{
    for one in taken {
        push_taken(text, one)?;
    }
    Ok(())
}

fn push_all_taken(text: &mut String, taken: &[Taken]) -> Result<(), AllocError>
    ensures { OnOk result (string_bytes text.new ≡ string_bytes text.old ++ all_taken_text taken.now) }
{
    if taken.is_empty() {
        text.push_str(" none")
    } else {
        push_each_taken(text, taken)
    }
}

fn push_triggered(text: &mut String, trigger: &Key, next: i64) -> Result<(), AllocError>
    ensures { OnOk result (string_bytes text.new ≡ string_bytes text.old ++ triggered_text trigger.now next) }
{
    text.push_str("triggered ")?;
    push_key(text, trigger)?;
    write!(text, " {next}")
}

fn push_moved(text: &mut String, row: &MovedRow) -> Result<(), AllocError>
    ensures { OnOk result (string_bytes text.new ≡ string_bytes text.old ++ moved_text row.now) }
{
    text.push(' ')?;
    push_key(text, &row.trigger)?;
    let next = Next(row.next);
    write!(text, " {next}")
}

fn push_each_moved(text: &mut String, rows: &[MovedRow]) -> Result<(), AllocError>
    ensures { OnOk result (string_bytes text.new ≡ string_bytes text.old ++ flat_map moved_text rows.now) }
{
    for row in rows {
        push_moved(text, row)?;
    }
    Ok(())
}

fn push_all_moved(text: &mut String, rows: &[MovedRow]) -> Result<(), AllocError>
    ensures { OnOk result (string_bytes text.new ≡ string_bytes text.old ++ all_moved_text rows.now) }
{
    if rows.is_empty() {
        text.push_str(" none")
    } else {
        push_each_moved(text, rows)
    }
}

fn push_fired(
    text: &mut String,
    entry: u64,
    scheduled: i64,
    fired: i64,
    next: Option<i64>,
) -> Result<(), AllocError>
    ensures { OnOk result (string_bytes text.new ≡ string_bytes text.old ++ fired_text entry scheduled fired next) }
{
    write!(text, "fired {entry} scheduled {scheduled}")?;
    push_moments(text, fired, next)
}

/// When it fired, and its next time.
fn push_moments(text: &mut String, fired: i64, next: Option<i64>) -> Result<(), AllocError>
    ensures { OnOk result (string_bytes text.new ≡ string_bytes text.old ++ codes " at " ++ signed_decimal fired ++ codes " next " ++ next_text next) }
{
    let next = Next(next);
    write!(text, " at {fired} next {next}")
}

fn push_refusal(text: &mut String, refusal: &Refusal) -> Result<(), AllocError>
    ensures { OnOk result (string_bytes text.new ≡ string_bytes text.old ++ refusal_text refusal.now) }
{
    let number = refusal.number();
    write!(text, "refused {number}")?;
    push_field(text, refusal)
}

fn push_field(text: &mut String, refusal: &Refusal) -> Result<(), AllocError>
    ensures { OnOk result (string_bytes text.new ≡ string_bytes text.old ++ refusal_field refusal.now) }
{
    match refusal {
        Refusal::Fenced { live: Some(epoch) } => write!(text, " live {epoch}"),
        Refusal::Fenced { live: None } => text.push_str(" live none"),
        Refusal::InUse { by } => write!(text, " by {by}"),
        Refusal::Circle { at } => write!(text, " at {at}"),
        Refusal::FlagInUse { entry } => write!(text, " entry {entry}"),
        Refusal::NotYours { owner } => push_owner(text, owner),
        Refusal::Early { next } => write!(text, " next {next}"),
        Refusal::StillFresh { until } => write!(text, " until {until}"),
        Refusal::TooMany { count } => write!(text, " count {count}"),
        Refusal::Renewed { last } => write!(text, " last {last}"),
        _ => Ok(()),
    }
}

/// The member whose row it is.
fn push_owner(text: &mut String, owner: &Owner) -> Result<(), AllocError>
    ensures { OnOk result (string_bytes text.new ≡ string_bytes text.old ++ owner_text owner.now) }
{
    text.push_str(" owner ")?;
    let epoch = owner.epoch();
    push_name(text, owner.node())?;
    write!(text, " {epoch}")
}
