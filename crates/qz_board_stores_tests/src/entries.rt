//! Entries of a job that is fired once, by a client and by the member A of epoch 1.
ghost use Rattle.std.specs.Prelude.{◌≡◌, IsTrue, IfOk};
ghost use Rattle.qz_civil.specs.Timings.{is_name};
ghost use Rattle.qz_types.specs.Rows.{is_key};

use qz_types::{
    Actor, Code, Command, Entry, JobRow, Key, Kind, MemberRow, Text, Timing, TriggerSpec,
};
use std::alloc::{AllocError, Global};

/// 2024-01-01T00:00:00Z.
pub(super) const T0: i64 = 1704067200000;

pub(super) fn key(alloc: Global, name: &str) -> Result<Key, AllocError>
    requires { IsTrue (is_name name.now) }
    ensures { IfOk result (λ key. IsTrue (is_key key)) }
{
    Key::new(alloc, "DEFAULT", name)
}

pub(super) fn job(alloc: Global, name: &str) -> Result<JobRow, AllocError>
    requires { IsTrue (is_name name.now) }
{
    Ok(JobRow {
        key: key(alloc, name)?,
        class: Text::from_str(alloc, "ok")?,
        durable: false,
        no_concurrent: false,
        requests_recovery: false,
        payload: Text::new(alloc),
    })
}

#[tactic(auto, unfolding(qz_types::specs::Entries::is_entry))]
pub(super) fn add_job(alloc: Global, at: i64, seat: u32) -> Result<Entry, AllocError>
    ensures { IfOk result (λ entry. entry.seat ≡ seat) }
{
    let job = job(alloc, "report")?;
    Ok(Entry {
        at,
        actor: Actor::Client,
        seat,
        command: Command::AddJob {
            job,
            replace: false,
        },
    })
}

// A trigger of the job that fires once, at T0.
#[tactic(auto, unfolding(qz_types::specs::Entries::is_entry))]
pub(super) fn add_trigger(alloc: Global, at: i64) -> Result<Entry, AllocError> {
    let spec = TriggerSpec {
        key: key(alloc, "t1")?,
        job: key(alloc, "report")?,
        priority: 5,
        calendar: None,
        timing: Timing {
            kind: Kind::Simple {
                interval: 0,
                count: 0,
            },
            misfire: 0,
            start: T0,
            end: None,
        },
    };
    Ok(Entry {
        at,
        actor: Actor::Client,
        seat: 0,
        command: Command::AddTrigger {
            spec,
            replace: false,
        },
    })
}

#[tactic(auto, unfolding(qz_types::specs::Entries::is_entry))]
pub(super) fn join(alloc: Global, at: i64) -> Result<Entry, AllocError> {
    let node = Text::from_str(alloc, "A")?;
    Ok(Entry {
        at,
        actor: Actor::Client,
        seat: 0,
        command: Command::Join { node },
    })
}

pub(super) fn node_a(alloc: Global) -> Result<MemberRow, AllocError> {
    let node = Text::from_str(alloc, "A")?;
    Ok(MemberRow { node, epoch: 1 })
}

#[tactic(auto, unfolding(qz_types::specs::Entries::is_entry))]
pub(super) fn acquire(alloc: Global, at: i64) -> Result<Entry, AllocError> {
    let me = node_a(alloc)?;
    Ok(Entry {
        at,
        actor: Actor::Node(me),
        seat: 0,
        command: Command::Acquire {
            no_later: T0,
            window: 0,
            max: 1,
        },
    })
}

#[tactic(auto, unfolding(qz_types::specs::Entries::is_entry))]
pub(super) fn fire(alloc: Global, at: i64, entry: u64) -> Result<Entry, AllocError> {
    let me = node_a(alloc)?;
    Ok(Entry {
        at,
        actor: Actor::Node(me),
        seat: 0,
        command: Command::Fire { entry },
    })
}

#[tactic(auto, unfolding(qz_types::specs::Entries::is_entry))]
pub(super) fn complete(alloc: Global, at: i64, entry: u64) -> Result<Entry, AllocError> {
    let me = node_a(alloc)?;
    Ok(Entry {
        at,
        actor: Actor::Node(me),
        seat: 0,
        command: Command::Complete {
            entry,
            code: Code::Noop,
        },
    })
}
