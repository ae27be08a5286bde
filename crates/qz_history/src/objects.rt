//! Transactions as objects.
ghost use Rattle.std.specs.Prelude.{◌≡◌, ◌∷◌, ◌++◌, ℕ, List, OnOk, IfOk, codes};
ghost use Rattle.std.specs.Fmt.{decimal};
ghost use Rattle.qz_report.specs.Replies.{ok_text};
ghost use Rattle.qz_json_rows.specs.Json.{label, more, quoted};
ghost use Rattle.qz_json_rows.specs.Lines.{line_text};
ghost use Rattle.qz_history.specs.Objects as spec;

use qz_json_rows::{push_bytes, push_label, push_line, push_more, push_unsigned};
use qz_report::reply_line;
use qz_steps::StepReply;
use qz_types::{Actor, Entry, NoMemory, Reply, Text};
use std::alloc::{AllocError, Global};

/// Adds the object of a transaction: its number in the whole history, the epoch under which a node asked, the line that asks for
/// it once more at its recorded moment, in ms since 1970-01-01T00:00:00Z, and the text of its reply. A line feed is at the end.
#[tactic(auto, unfolding(crate::specs::Objects::object_text))]
pub(crate) fn push_object(
    alloc: Global,
    text: &mut Vec<u8>,
    number: u64,
    moment: i64,
    entry: &Entry,
    reply: Reply,
) -> Result<(), NoMemory>
    ensures { OnOk result (text.new.items ≡ text.old.items ++ spec.object_text number moment entry.now reply) }
{
    push_number(text, number)?;
    push_epoch(text, &entry.actor)?;
    push_told_line(alloc, text, moment, entry)?;
    push_reply(alloc, text, reply)?;
    text.extend_from_slice(b"}\n")?;
    Ok(())
}

// The line that asks for it once more.
#[tactic(auto, unfolding(qz_json_rows::specs::Json::more))]
fn push_told_line(
    alloc: Global,
    text: &mut Vec<u8>,
    moment: i64,
    entry: &Entry,
) -> Result<(), NoMemory>
    ensures { OnOk result (text.new.items ≡ text.old.items ++ more (codes "line") (line_text moment entry.now)) }
{
    push_more(text, "line")?;
    push_line(alloc, text, moment, entry)
}

// The text of the reply.
fn push_reply(alloc: Global, text: &mut Vec<u8>, reply: Reply) -> Result<(), NoMemory>
    ensures { OnOk result (text.new.items ≡ text.old.items ++ more (codes "reply") (quoted (ok_text reply))) }
{
    let reply = text_of(alloc, reply)?;
    push_text_before_feed(text, &reply)?;
    Ok(())
}

// The reply's text, with a line feed.
fn text_of(alloc: Global, reply: Reply) -> Result<Text, NoMemory>
    ensures { IfOk result (λ text. text ≡ ok_text reply ++ codes "\n") }
{
    let reply = StepReply::Ok(reply);
    let line = reply_line(alloc, &reply);
    drop(reply);
    line
}

// The first member.
fn push_number(text: &mut Vec<u8>, number: u64) -> Result<(), AllocError>
    ensures { OnOk result (text.new.items ≡ text.old.items ++ 123 ∷ label (codes "number") ++ decimal number) }
{
    text.extend_from_slice(b"{")?;
    push_label(text, "number")?;
    push_unsigned(text, number)
}

// The epoch under which a node asked.
#[tactic(auto, unfolding(qz_json_rows::specs::Json::more))]
fn push_epoch(text: &mut Vec<u8>, actor: &Actor) -> Result<(), AllocError>
    ensures { OnOk result (text.new.items ≡ text.old.items ++ spec.epoch_member actor.now) }
{
    match actor {
        Actor::Client => Ok(()),
        Actor::Node(member) => {
            push_more(text, "epoch")?;
            push_unsigned(text, member.epoch)
        }
    }
}

// The text of a reply, which stands with a line feed.
#[tactic(auto, unfolding(qz_json_rows::specs::Json::more))]
fn push_text_before_feed(text: &mut Vec<u8>, reply: &Text) -> Result<(), AllocError>
    ensures { (told : List ℕ) → reply.now ≡ told ++ codes "\n" → OnOk result (text.new.items ≡ text.old.items ++ more (codes "reply") (quoted told)) }
{
    push_more(text, "reply")?;
    match reply.as_str().as_bytes().split_last() {
        Some((_feed, told)) => push_bytes(text, told),
        None => push_bytes(text, b""),
    }
}
