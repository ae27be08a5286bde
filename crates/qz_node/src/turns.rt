//! What a node does next.
ghost use Rattle.std.specs.Prelude.{◌≡◌, ◌<ℤ◌, ◌+ℤ◌, pos};
ghost use Rattle.std.specs.Int.{int_min};
ghost use Rattle.qz_node.specs.Turns.{new_turn, wanted, wanted_idle, wanted_held, learnt, learnt_reply, learnt_refusal, holding, ended, ends_at_refusal, CanHear, CanHearReply};

use qz_types::{Code, Refusal, Reply};
use std::marker::Model;

/// How long a node rests at most before it looks for work again, in ms.
const LONGEST_REST: i64 = 1000;

/// The last thing that a node heard of the entry that it holds.
#[derive(Clone, Copy)]
pub(crate) enum LastHeard {
    /// It was acquired.
    Acquired,
    /// Its execution began.
    Fired,
    /// The execution is done, and asks for this.
    Executed { code: Code },
    /// The job is to be executed once more.
    Again,
}

/// The entry that a node holds.
#[derive(Clone, Copy)]
pub(crate) struct Held {
    pub(crate) entry: u64,
    pub(crate) last: LastHeard,
}

/// What a node that holds no entry does next.
#[derive(Clone, Copy)]
pub(crate) enum Idle {
    Misfires,
    Acquire,
    Rest,
}

/// What a node has learnt, as far as it decides what the node does next. Quartz's scheduler thread goes the same way: misfires
/// first, then one acquired trigger at a time, which it fires, executes and completes, and a pause where nothing is due.
#[derive(Drop)]
pub struct Turn {
    until: i64,
    held: Option<Held>,
    idle: Idle,
    fenced: bool,
}

impl Model for Turn {
    ghost use Rattle.qz_node.specs.Turns.{TurnData};

    ghost Value = { TurnData };

    ghost view = { λ t. record { until = t.until; held = t.held; idle = t.idle; fenced = t.fenced } };
}

/// What a node hears.
#[derive(Clone, Copy)]
pub enum Heard<'a> {
    /// A transaction of its own was accepted.
    Reply(&'a Reply),
    /// A transaction of its own was refused.
    Refused(&'a Refusal),
    /// The execution of this entry is done, and asks for this.
    Executed { entry: u64, code: Code },
    /// The rest is over.
    Rested,
}

/// What a node does next. Moments are in ms since 1970-01-01T00:00:00Z.
#[derive(Clone, Copy, PartialEq, Eq, Debug)]
pub enum Want {
    /// It moves the triggers that are misfired.
    Misfires,
    /// It acquires one trigger whose next time is at most `no_later`.
    Acquire { no_later: i64 },
    /// It begins the execution of what it acquired.
    Fire { entry: u64 },
    /// It executes the job.
    Execute { entry: u64 },
    /// It ends the execution, which asks for this.
    Complete { entry: u64, code: Code },
    /// It has nothing to do before `until`.
    Rest { until: i64 },
    /// It is done, or isn't a member any more.
    End,
}

impl Turn {
    /// The turn of a node that works up to the moment `until`, in ms since 1970-01-01T00:00:00Z, and has learnt nothing yet.
    /// It takes no memory.
    pub fn new(until: i64) -> Turn
        ensures { result ≡ new_turn until }
    {
        Turn {
            until,
            held: None,
            idle: Idle::Misfires,
            fenced: false,
        }
    }

    /// What the node does next, where the clock reads `now`, in ms since 1970-01-01T00:00:00Z. It takes no memory.
    pub fn next_step(&self, now: i64) -> Want
        ensures { result ≡ wanted self.now now }
    {
        if self.fenced {
            return Want::End;
        }
        match self.held {
            Some(held) => held.wanted(),
            None => self.wanted_idle(now),
        }
    }

    /// Takes in what was heard. It takes no memory. What is heard belongs to what was wanted: a Misfired comes while Misfires is
    /// wanted, an Acquired of at most one trigger while Acquire is, and what is heard of an entry is of the one that is held.
    #[tactic(auto, using(crate::proofs::Keeping::until_kept))]
    pub fn learn(&mut self, heard: Heard<'_>)
        requires { CanHear self.old heard }
        ensures learnt { self.new ≡ learnt self.old heard.entry }
        ensures until { self.new.until ≡ self.old.until }
    {
        match heard {
            Heard::Reply(reply) => self.learn_reply(reply),
            Heard::Refused(refusal) => self.learn_refusal(refusal),
            Heard::Executed { entry, code } => self.hold(entry, LastHeard::Executed { code }),
            Heard::Rested => self.idle = Idle::Misfires,
        }
    }

    // What is wanted while no entry is held.
    fn wanted_idle(&self, now: i64) -> Want
        ensures { result ≡ wanted_idle self.now.until self.now.idle now }
    {
        match self.idle {
            Idle::Misfires => Want::Misfires,
            Idle::Acquire => Want::Acquire {
                no_later: now.min(self.until).max(0),
            },
            Idle::Rest => {
                if now >= self.until {
                    Want::End
                } else {
                    Want::Rest {
                        until: rest_end(self.until, now),
                    }
                }
            }
        }
    }

    // From now on the entry is held, and this was heard of it last.
    fn hold(&mut self, entry: u64, last: LastHeard)
        ensures { self.new ≡ holding entry last self.old }
    {
        self.held = Some(Held { entry, last });
    }

    // From now on no entry is held.
    fn end_entry(&mut self)
        ensures { self.new ≡ ended self.old }
    {
        self.held = None;
        self.idle = Idle::Misfires;
    }

    fn learn_reply(&mut self, reply: &Reply)
        requires { CanHearReply self.old reply.now }
        ensures { self.new ≡ learnt_reply self.old reply.now }
    {
        match reply {
            Reply::Misfired(moved) => {
                if moved.is_empty() {
                    self.idle = Idle::Acquire;
                }
            }
            Reply::Acquired(taken) => match taken.as_slice() {
                [] => self.idle = Idle::Rest,
                [first, ..] => self.hold(first.entry, LastHeard::Acquired),
            },
            Reply::Fired { entry, .. } => self.hold(*entry, LastHeard::Fired),
            Reply::Again { entry } => self.hold(*entry, LastHeard::Again),
            Reply::Completed { entry: _ } => self.end_entry(),
            _ => {}
        }
    }

    fn learn_refusal(&mut self, refusal: &Refusal)
        ensures { self.new ≡ learnt_refusal self.old refusal.now }
    {
        if let Refusal::Fenced { live: _ } = refusal {
            self.fenced = true;
        }
        if let Some(held) = self.held
            && held.ends_at_refusal()
        {
            self.end_entry();
        }
    }
}

impl Held {
    fn wanted(&self) -> Want
        ensures { result ≡ wanted_held self.now }
    {
        let entry = self.entry;
        match self.last {
            LastHeard::Acquired => Want::Fire { entry },
            LastHeard::Fired => Want::Execute { entry },
            LastHeard::Again => Want::Execute { entry },
            LastHeard::Executed { code } => Want::Complete { entry, code },
        }
    }

    // Whether its Fire or its Complete is what a refusal refuses.
    fn ends_at_refusal(&self) -> bool
        ensures { result ≡ ends_at_refusal self.now.last }
    {
        match self.last {
            LastHeard::Acquired => true,
            LastHeard::Executed { code: _ } => true,
            LastHeard::Fired => false,
            LastHeard::Again => false,
        }
    }
}

// The lesser of until and LONGEST_REST from now.
fn rest_end(until: i64, now: i64) -> i64
    requires { now <ℤ until }
    ensures { result ≡ int_min until (now +ℤ pos 1000) }
{
    match now.checked_add(LONGEST_REST) {
        Some(end) => end.min(until),
        None => until,
    }
}
