//! Lines of histories.
ghost use Rattle.std.specs.Prelude.{◌≡◌, ◌++◌, ◌∷◌, [], ◌+◌, ◌-◌, ◌^◌, ◌≤◌, length, IfOk, OnOk, string_bytes};
ghost use Rattle.std.specs.Fmt.{decimal, signed_decimal};
ghost use Rattle.qz_steps.specs.Words.{word_of_command};
ghost use Rattle.qz_report.specs.Replies.{ok_text};
ghost use Rattle.qz_report.specs.Histories as spec;

use crate::names::push_name;
use crate::replies::push_ok;
use qz_types::{Actor, Command, Entry, NoMemory, Reply, Text};
use std::alloc::{AllocError, Global};
use std::fmt::Write;

/// Room for most lines, so that they take memory once.
const USUAL_LENGTH: usize = 128;

/// The line `NUMBER MOMENT ACTOR WORD REPLY` of an accepted transaction, with its line feed: the number of the entry, its
/// recorded moment in ms since 1970-01-01T00:00:00Z, who asked for it (`client`, or `NODE:EPOCH`), the word of its command,
/// and the text of its reply.
pub fn history_line(
    alloc: Global,
    number: u64,
    moment: i64,
    entry: &Entry,
    reply: &Reply,
) -> Result<Text, NoMemory>
    ensures { IfOk result (λ text. text ≡ spec.history_line number moment entry.now reply.now) }
{
    let mut text = String::with_capacity(alloc, USUAL_LENGTH)?;
    push_line(&mut text, number, moment, entry, reply)?;
    Ok(Text::from_string(text))
}

/// The lines of these entries, in their order, with their recorded moments in ms since 1970-01-01T00:00:00Z and their
/// replies. The first line has the number `from`.
pub fn history_lines(
    alloc: Global,
    entries: &[Entry],
    moments: &[i64],
    replies: &[Reply],
    from: u64,
) -> Result<Text, NoMemory>
    requires moments { length moments.now ≡ length entries.now }
    requires replies { length replies.now ≡ length entries.now }
    requires numbers { from + length entries.now ≤ 2 ^ 64 - 1 }
    ensures { IfOk result (λ text. text ≡ spec.history_text entries.now moments.now replies.now from) }
{
    let mut text = String::new(alloc);
    for i in 0..entries.len() {
        push_line(
            &mut text,
            from + i as u64,
            moments[i],
            &entries[i],
            &replies[i],
        )?;
    }
    Ok(Text::from_string(text))
}

#[tactic(auto, unfolding(crate::specs::Histories::history_line))]
fn push_line(
    text: &mut String,
    number: u64,
    moment: i64,
    entry: &Entry,
    reply: &Reply,
) -> Result<(), AllocError>
    ensures { OnOk result (string_bytes text.new ≡ string_bytes text.old ++ spec.history_line number moment entry.now reply.now) }
{
    push_origin(text, number, moment, &entry.actor)?;
    push_outcome(text, &entry.command, reply)
}

/// The number, the moment and who asked.
fn push_origin(text: &mut String, number: u64, moment: i64, actor: &Actor) -> Result<(), AllocError>
    ensures { OnOk result (string_bytes text.new ≡ string_bytes text.old ++ decimal number ++ 32 ∷ signed_decimal moment ++ 32 ∷ spec.actor_text actor.now ++ 32 ∷ []) }
{
    write!(text, "{number} {moment} ")?;
    push_actor(text, actor)?;
    text.push(' ')
}

/// The end of the line: what was asked, and what it came to.
fn push_outcome(text: &mut String, command: &Command, reply: &Reply) -> Result<(), AllocError>
    ensures { OnOk result (string_bytes text.new ≡ string_bytes text.old ++ word_of_command command.now ++ 32 ∷ ok_text reply.now ++ 10 ∷ []) }
{
    text.push_str(word_of(command))?;
    text.push(' ')?;
    push_ok(text, reply)?;
    text.push('\n')
}

fn push_actor(text: &mut String, actor: &Actor) -> Result<(), AllocError>
    ensures { OnOk result (string_bytes text.new ≡ string_bytes text.old ++ spec.actor_text actor.now) }
{
    match actor {
        Actor::Client => text.push_str("client"),
        Actor::Node(member) => {
            push_name(text, member.node.as_str())?;
            write!(text, ":{}", member.epoch)
        }
    }
}

/// The word of the lines that ask for the command.
fn word_of(command: &Command) -> &'static str
    ensures { result.now ≡ word_of_command command.now }
{
    match command {
        Command::AddJob { job: _, replace: _ } => "add_job",
        Command::DeleteJob { key: _ } => "delete_job",
        Command::AddTrigger {
            spec: _,
            replace: _,
        } => "add_trigger",
        Command::DeleteTrigger { key: _ } => "delete_trigger",
        Command::PauseTrigger { key: _ } => "pause_trigger",
        Command::ResumeTrigger { key: _ } => "resume_trigger",
        Command::PauseGroup { group: _ } => "pause_group",
        Command::ResumeGroup { group: _ } => "resume_group",
        Command::AddCalendar {
            calendar: _,
            replace: _,
        } => "add_calendar",
        Command::DeleteCalendar { name: _ } => "delete_calendar",
        Command::AddZone { zone: _ } => "add_zone",
        Command::DeleteZone { name: _ } => "delete_zone",
        Command::TriggerNow { job: _ } => "trigger_now",
        Command::Threshold { ms: _ } => "threshold",
        Command::Join { node: _ } => "join",
        Command::Leave => "leave",
        Command::Acquire {
            no_later: _,
            window: _,
            max: _,
        } => "acquire",
        Command::Release { entry: _ } => "release",
        Command::Fire { entry: _ } => "fire",
        Command::Complete { entry: _, code: _ } => "complete",
        Command::Misfires => "misfires",
        Command::Recover { node: _ } => "recover",
        Command::Upgrade => "migrate",
        Command::ResetTrigger { key: _ } => "reset_trigger",
        Command::PauseJobGroup { group: _ } => "pause_job_group",
        Command::ResumeJobGroup { group: _ } => "resume_job_group",
    }
}
