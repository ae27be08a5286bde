//! Texts that no call writes: numbers at their limits, and lines of a history that clients made. Counts of histories.
ghost use Rattle.std.specs.Prelude.{◌≡◌, false, IsTrue};
ghost use Rattle.qz_types.specs.Entries.{is_command, is_of_node};
ghost use Rattle.qz_types.specs.Rows.{is_node};

use qz_report::{Counts, history_line, reply_line};
use qz_steps::{Marked, Shown, StepReply};
use qz_types::{Actor, Code, Command, Entry, Key, MemberRow, NoMemory, Refusal, Reply, Text};
use std::alloc::{AllocError, Global};

// Whether this is the reply's line. The reply and its line are let go here and nowhere else.
fn has_line(alloc: Global, reply: StepReply, line: &str) -> bool {
    let told = reply_line(alloc, &reply);
    drop(reply);
    match told {
        Ok(text) => text.as_str() == line,
        Err(NoMemory) => false,
    }
}

fn is_refused(alloc: Global, refusal: Refusal, line: &str) -> bool {
    has_line(alloc, StepReply::Refused(refusal), line)
}

fn numbers_have_their_lines(alloc: Global) -> bool {
    is_refused(alloc, Refusal::Renewed { last: 5 }, "refused 26 last 5\n")
        && is_refused(alloc, Refusal::Early { next: -1 }, "refused 19 next -1\n")
        && is_refused(
            alloc,
            Refusal::StillFresh { until: -1 },
            "refused 21 until -1\n",
        )
        && has_line(alloc, StepReply::Shown(Shown::Next(Some(-1))), "next -1\n")
        && has_line(
            alloc,
            StepReply::Ok(Reply::Completed { entry: u64::MAX }),
            "completed 18446744073709551615\n",
        )
        && has_line(
            alloc,
            StepReply::Marked(Marked::NoRoom),
            "checkpoint no room\n",
        )
}

#[test]
fn replies_have_their_lines(rt: HostRuntime) {
    assert!(rt; numbers_have_their_lines(rt.alloc()));
}

// What a node did under an epoch.
#[tactic(auto, unfolding(qz_types::specs::Entries::is_entry))]
fn of_node(node: Text, command: Command) -> Entry
    requires name { IsTrue (is_node node) }
    requires valid { IsTrue (is_command command) }
    requires node { IsTrue (is_of_node command) }
{
    Entry {
        at: 10,
        actor: Actor::Node(MemberRow { node, epoch: 4 }),
        seat: 0,
        command,
    }
}

fn completed(alloc: Global) -> Result<Entry, AllocError> {
    let node = Text::from_str(alloc, "n 1")?;
    let code = Code::ReExecuteJob;
    Ok(of_node(node, Command::Complete { entry: 9, code }))
}

// What a client did.
#[tactic(auto, unfolding(qz_types::specs::Entries::is_entry))]
fn of_client(command: Command) -> Entry
    requires valid { IsTrue (is_command command) }
    requires client { is_of_node command ≡ false }
{
    Entry {
        at: -3,
        actor: Actor::Client,
        seat: 0,
        command,
    }
}

fn triggered(alloc: Global) -> Result<Entry, AllocError> {
    let job = Key::new(alloc, "DEFAULT", "j")?;
    Ok(of_client(Command::TriggerNow { job }))
}

fn reset(alloc: Global) -> Result<Entry, AllocError> {
    let key = Key::new(alloc, "g", "t")?;
    Ok(of_client(Command::ResetTrigger { key }))
}

fn job_group_paused(alloc: Global) -> Result<Entry, AllocError> {
    let group = Text::from_str(alloc, "g")?;
    Ok(of_client(Command::PauseJobGroup { group }))
}

fn job_group_resumed(alloc: Global) -> Result<Entry, AllocError> {
    let group = Text::from_str(alloc, "g")?;
    Ok(of_client(Command::ResumeJobGroup { group }))
}

// Whether this is the entry's line, with this number and reply.
fn is_told(
    alloc: Global,
    number: u64,
    entry: Result<Entry, AllocError>,
    reply: Reply,
    line: &str,
) -> bool {
    let told = match &entry {
        Ok(entry) => history_line(alloc, number, 1704067200000, entry, &reply),
        Err(AllocError) => Err(NoMemory),
    };
    drop(entry);
    drop(reply);
    match told {
        Ok(text) => text.as_str() == line,
        Err(NoMemory) => false,
    }
}

// Whether this is the line of a client's entry 7 that was done.
fn is_done(alloc: Global, entry: Result<Entry, AllocError>, line: &str) -> bool {
    is_told(alloc, 7, entry, Reply::Done, line)
}

fn entries_are_told(alloc: Global) -> bool {
    let again = "18446744073709551615 1704067200000 n%201:4 complete again 9\n";
    let reply = Reply::Again { entry: 9 };
    is_told(alloc, u64::MAX, completed(alloc), reply, again)
        && is_done(
            alloc,
            triggered(alloc),
            "7 1704067200000 client trigger_now ok\n",
        )
        && is_done(
            alloc,
            reset(alloc),
            "7 1704067200000 client reset_trigger ok\n",
        )
        && is_done(
            alloc,
            job_group_paused(alloc),
            "7 1704067200000 client pause_job_group ok\n",
        )
        && is_done(
            alloc,
            job_group_resumed(alloc),
            "7 1704067200000 client resume_job_group ok\n",
        )
        && is_done(
            alloc,
            Ok(of_client(Command::Upgrade)),
            "7 1704067200000 client migrate ok\n",
        )
}

#[test]
fn entries_have_their_lines(rt: HostRuntime) {
    assert!(rt; entries_are_told(rt.alloc()));
}

// A node became a member, and so many recovery triggers were added.
fn joined(triggers: u64) -> Reply {
    Reply::Joined {
        epoch: 1,
        executions: 20,
        triggers,
    }
}

// Whether the count of recovered executions, which had come to 3, stays at its limit.
fn stays_at_the_limit(entry: Entry) -> bool {
    let mut counts = Counts::new();
    let (few, most) = (joined(3), joined(u64::MAX));
    counts.add(&entry, &few);
    let three = counts.recovered == 3;
    counts.add(&entry, &most);
    drop(entry);
    drop(few);
    drop(most);
    three && counts.recovered == u64::MAX && counts.fired == 0 && counts.misfired == 0
}

#[test]
fn counts_stay_at_their_limit(rt: HostRuntime) {
    assert!(rt; stays_at_the_limit(of_client(Command::Upgrade)));
}
