//! How a call ends.
ghost use Rattle.std.specs.Prelude.{◌≡◌};
ghost use Rattle.qz_top.specs.Lines.{kind_of};
ghost use Rattle.qz_top.specs.Statuses.{exit_number};

use qz_cron_text::CronError;
use qz_job_json::LineFault;
use qz_types::Store;
use qz_words::WordFault;

/// What is wrong with a line of the input.
#[derive(Clone, Copy, PartialEq, Eq, Debug)]
pub enum BadKind {
    /// More than 65536 bytes stand before the line's end.
    TooLong,
    /// The bytes aren't UTF-8, or they aren't one JSON value.
    NotJson,
    /// It isn't a step: an unknown or missing member, a value of another type, `null`, or a value out of its range.
    Shape,
    /// A cron text that doesn't parse.
    Cron(CronError),
    /// More lines begin than a script may have.
    TooManyLines,
    /// The format has this line or this member, and the call doesn't take it.
    NotHere,
}

/// What is wrong with a line that has this fault.
pub(crate) fn kind_of(fault: LineFault) -> BadKind
    ensures { result ≡ kind_of fault }
{
    match fault {
        LineFault::TooLong => BadKind::TooLong,
        LineFault::NotJson => BadKind::NotJson,
        LineFault::NotHere => BadKind::NotHere,
        LineFault::Cron(error) => BadKind::Cron(error),
        LineFault::Shape => BadKind::Shape,
    }
}

/// How a call ends. The first cause that was met is answered, and want of memory may be at any time.
#[derive(Clone, Copy, PartialEq, Eq, Debug)]
pub enum Status {
    /// The work was done, and the input read to its end.
    Ok,
    /// The words of the command line are none that a call has. Nothing was read or written.
    BadWords { fault: WordFault },
    /// The first bad line of the input, counted from 1. The lines before it were done and answered.
    BadLine { line: u64, fault: BadKind },
    /// A read of the input failed. Each line whose line feed was read was done and answered.
    ReadFault,
    /// A write of the output failed.
    WriteFault,
    /// A disk failed while the stores were made or opened; or, after a whole script, a store is closed since a disk
    /// failed.
    DiskFault,
    /// `script`: the disk doesn't begin with this store's header. `init`: this disk begins with the other store's header;
    /// a trigger store that was made before it stays. No input was read and no output written. In a script's restart: a
    /// disk lost what was acknowledged, which no honest one does; the lines before were done and answered.
    NotAStore { store: Store },
    /// The first bad place of the store's bytes, as an offset. Nothing was read from the input or written; or it was
    /// found in a script's restart, as `NotAStore` is.
    Damaged { store: Store, at: u64 },
    /// A step would be accepted, and its record needs more bytes than are left in the store. `follow` and `compact`: the same of a record of
    /// the stream. `compact`: the snapshot needs more bytes than a store has behind its first gate, so that `need` is one more than `room`.
    JournalFull { need: u64, room: u64 },
    /// `run` and `gen`: so many firings were made, which is all that the call may make, and a trigger that waits has a next
    /// time that isn't after the run's end.
    Budget { firings: u64 },
    /// Memory ran out.
    NoMemory,
    /// `init`: both stores exist already. `follow` and `compact`: one of them does. `gen`: the history of the trigger store isn't empty.
    Exists,
    /// `run` and `gen`: a transaction of one of the nodes was refused, since there would be this many rows or members.
    TooMany { count: u64 },
    /// `run` and `gen`: the trigger store is one of version 1 that wasn't upgraded. Nothing was done or written; `migrate`
    /// upgrades it.
    OldStore,
    /// `follow` and `compact`: the first bad place of the input's bytes, as an offset; or their number, where they end within the header; or the
    /// gate of the slot that leads to their base, where they end before that is whole. No store was made.
    BadStream { at: u64 },
    /// `serve`: one of its nodes was recovered by another one while it worked, so that what it asked next was refused. What its
    /// executions did may have been done once more.
    Fenced,
}

impl Status {
    /// The program's exit status.
    pub fn exit_number(self) -> u8
        ensures { result ≡ exit_number self }
    {
        match self {
            Status::Ok => 0,
            Status::BadWords { fault: _ } => 1,
            Status::BadLine { line: _, fault: _ } => 2,
            Status::ReadFault => 3,
            Status::WriteFault => 4,
            Status::DiskFault => 5,
            Status::NotAStore { store: _ } => 6,
            Status::Damaged { store: _, at: _ } => 6,
            Status::JournalFull { need: _, room: _ } => 7,
            Status::Budget { firings: _ } => 8,
            Status::NoMemory => 9,
            Status::Exists => 10,
            Status::TooMany { count: _ } => 11,
            Status::OldStore => 12,
            Status::BadStream { at: _ } => 13,
            Status::Fenced => 14,
        }
    }
}
