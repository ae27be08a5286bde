//! `follow` and `compact`: both stores are made of the bytes of a trigger store.
ghost use Rattle.std.specs.Prelude.{◌≡◌, ◌⊎◌, [], IfOk, None};
ghost use Rattle.qz_civil.specs.Causes.{Rose};
ghost use Rattle.qz_follow.specs.View.{view, keeps_of};
ghost use Rattle.qz_io.specs.Around.{without_clock, output_alone};
ghost use Rattle.qz_top.specs.Calls.{trail_of};
ghost use Rattle.qz_top.specs.Following.{RanFollow, StoodBy, SaysFollowed, done_word, followed_text, unmade_status, unread_status};
ghost use Rattle.qz_standby.specs.Forms.{needs_payloads};
ghost use Rattle.qz_top.specs.HandingOn.{HandsOnWritten};

use crate::Status;
use crate::ended::{Ended, ran_no_script};
use crate::writing::write_text;
use itoa::Buffer;
use qz_disk::Disk;
use qz_follow::{FollowFault, Follower};
use qz_io::{Sink, Source};
use qz_standby::{Form, Standby, Unmade, Unread, read_stream, stand_by};
use qz_types::{NoMemory, Text};
use std::alloc::Global;

/// Reads the bytes of a trigger store to their end, makes both stores of them, that of triggers in this form, and writes how many
/// entries they have.
pub(crate) fn follow<S: Source, K: Sink, D: Disk>(
    alloc: Global,
    form: Form,
    input: &mut S,
    out: &mut K,
    triggers: D,
    states: D,
) -> Ended<D>
    ensures done { RanFollow form triggers states result (without_clock S.Source K.Sink input.old out.old) (without_clock S.Source K.Sink input.new out.new) }
    ensures read { result.status ≡ Status.ReadFault → Rose (S.faults input.old) (S.faults input.new) }
    ensures write { result.status ≡ Status.WriteFault → Rose (K.faults out.old) (K.faults out.new) }
    ensures disk { result.status ≡ Status.DiskFault → Rose (D.faults triggers) (D.faults result.triggers) ⊎ Rose (D.faults states) (D.faults result.states) }
    ensures handed { HandsOnWritten K.Sink out.old out.new }
{
    match read_stream(alloc, form, input) {
        Ok(follower) => make_of(alloc, form, follower, out, triggers, states),
        Err(unread) => ran_no_script(alloc, unread_status(unread), triggers, states),
    }
}

// The status of a call that didn't read its stream to the end.
fn unread_status(unread: Unread) -> Status
    ensures { result ≡ unread_status unread }
{
    match unread {
        Unread::Failed => Status::ReadFault,
        Unread::Stream { fault } => match fault {
            FollowFault::BadStream { at } => Status::BadStream { at },
            FollowFault::JournalFull { need, room } => Status::JournalFull { need, room },
            FollowFault::NoMemory => Status::NoMemory,
        },
    }
}

// Makes both stores of a follower, and says so. The memory for the text is taken before the first write.
fn make_of<K: Sink, D: Disk>(
    alloc: Global,
    form: Form,
    follower: Follower,
    out: &mut K,
    triggers: D,
    states: D,
) -> Ended<D>
    requires keeps { keeps_of follower ≡ needs_payloads form }
    requires fine { (view follower).fault ≡ None }
    ensures done { StoodBy form (view follower) triggers states result (output_alone K.Sink out.old) (output_alone K.Sink out.new) }
    ensures trail { trail_of result.trail ≡ [] }
    ensures write { result.status ≡ Status.WriteFault → Rose (K.faults out.old) (K.faults out.new) }
    ensures disk { result.status ≡ Status.DiskFault → Rose (D.faults triggers) (D.faults result.triggers) ⊎ Rose (D.faults states) (D.faults result.states) }
    ensures handed { HandsOnWritten K.Sink out.old out.new }
{
    let Ok(text) = followed_text(alloc, form, follower.acknowledged()) else {
        drop(follower);
        return ran_no_script(alloc, Status::NoMemory, triggers, states);
    };
    let Standby {
        made,
        triggers,
        states,
    } = stand_by(alloc, form, follower, triggers, states);
    let status = say_followed(out, &text, form, made);
    ran_no_script(alloc, status, triggers, states)
}

// Says that both stores were made, or answers why not.
fn say_followed<K: Sink>(out: &mut K, text: &Text, form: Form, made: Result<u64, Unmade>) -> Status
    requires { IfOk made (λ count. text.now ≡ followed_text form count) }
    ensures said { SaysFollowed form result made (output_alone K.Sink out.old) (output_alone K.Sink out.new) }
    ensures write { result ≡ Status.WriteFault → Rose (K.faults out.old) (K.faults out.new) }
    ensures handed { HandsOnWritten K.Sink out.old out.new }
{
    match made {
        Ok(_) => write_text(out, text.as_str()),
        Err(unmade) => unmade_status(unmade),
    }
}

// The status of a call that didn't make both stores.
fn unmade_status(unmade: Unmade) -> Status
    ensures { result ≡ unmade_status unmade }
{
    match unmade {
        Unmade::Exists => Status::Exists,
        Unmade::NotAStore { store } => Status::NotAStore { store },
        Unmade::Short { at } => Status::BadStream { at },
        Unmade::NoRoom { need, room } => Status::JournalFull { need, room },
        Unmade::NoMemory => Status::NoMemory,
        Unmade::Fault => Status::DiskFault,
    }
}

fn followed_text(alloc: Global, form: Form, count: u64) -> Result<Text, NoMemory>
    ensures { IfOk result (λ text. text ≡ followed_text form count) }
{
    let mut buffer = Buffer::new();
    let mut text = String::new(alloc);
    text.push_str(done_word(form))?;
    text.push_str(buffer.format(count))?;
    text.push_str("\n")?;
    Ok(Text::from_string(text))
}

// What such a call did.
fn done_word(form: Form) -> &'static str
    ensures { result.now ≡ done_word form }
{
    match form {
        Form::Entries => "followed ",
        Form::Snapshot => "compacted ",
    }
}
