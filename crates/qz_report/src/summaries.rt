//! Counts over a history, and the line that sums it up.
ghost use Rattle.std.specs.Prelude.{◌≡◌, ◌++◌, ◌∷◌, [], List, IfOk, OnOk, codes, string_bytes};
ghost use Rattle.std.specs.Fmt.{decimal, signed_decimal};
ghost use Rattle.qz_types.specs.Entries.{EntryData};
ghost use Rattle.qz_types.specs.declared.replies.Reply.{Reply as ReplyData};
ghost use Rattle.qz_report.specs.Summaries as spec;

use qz_types::{Command, Entry, NoMemory, Reply, Text};
use std::alloc::{AllocError, Global};
use std::fmt::Write;

/// Room for the line, so that it takes memory once.
const USUAL_LENGTH: usize = 128;

/// How often something happened in a history. A count that would pass 2^64 - 1 stays there.
#[derive(Clone, Copy, PartialEq, Eq, Debug)]
pub struct Counts {
    /// Executions that began.
    pub fired: u64,
    /// Misfired triggers that were moved.
    pub misfired: u64,
    /// Recovery triggers that were added, for a failed node or for one that joined again.
    pub recovered: u64,
}

/// What a history comes to.
#[derive(Clone, Copy, PartialEq, Eq, Debug)]
pub struct Summary {
    /// Executions that began.
    pub fired: u64,
    /// Misfired triggers that were moved.
    pub misfired: u64,
    /// Recovery triggers that were added.
    pub recovered: u64,
    /// Jobs at the end.
    pub jobs: u64,
    /// Triggers at the end.
    pub triggers: u64,
    /// The recorded moment of the last transaction, in ms since 1970-01-01T00:00:00Z.
    pub at: i64,
}

impl Counts {
    /// The counts of no entries.
    #[tactic(auto, unfolding(crate::specs::Summaries::counts_of))]
    pub fn new() -> Self
        ensures { result ≡ spec.counts_of [] [] }
    {
        Counts {
            fired: 0,
            misfired: 0,
            recovered: 0,
        }
    }

    /// Counts one entry more, with its reply.
    pub fn add(&mut self, entry: &Entry, reply: &Reply)
        ensures { (entries : List EntryData) (replies : List ReplyData) → self.old ≡ spec.counts_of entries replies → self.new ≡ spec.counts_of (entries ++ entry.now ∷ []) (replies ++ reply.now ∷ []) }
    {
        self.fired = self.fired.saturating_add(fired_by(&entry.command));
        self.misfired = self.misfired.saturating_add(misfired_in(reply));
        self.recovered = self.recovered.saturating_add(recovered_in(reply));
    }
}

fn fired_by(command: &Command) -> u64
    ensures { result ≡ spec.fired_by command.now }
{
    match command {
        Command::Fire { entry: _ } => 1,
        _ => 0,
    }
}

fn misfired_in(reply: &Reply) -> u64
    ensures { result ≡ spec.misfired_in reply.now }
{
    match reply {
        Reply::Misfired(rows) => rows.len() as u64,
        _ => 0,
    }
}

fn recovered_in(reply: &Reply) -> u64
    ensures { result ≡ spec.recovered_in reply.now }
{
    match reply {
        Reply::Joined {
            epoch: _,
            executions: _,
            triggers,
        } => *triggers,
        Reply::Recovered {
            executions: _,
            triggers,
        } => *triggers,
        _ => 0,
    }
}

/// The line `summary fired N misfired N recovered N jobs N triggers N at M`, with its line feed.
pub fn summary_line(alloc: Global, summary: &Summary) -> Result<Text, NoMemory>
    ensures { IfOk result (λ text. text ≡ spec.summary_text summary.now) }
{
    let mut text = String::with_capacity(alloc, USUAL_LENGTH)?;
    push_counts(&mut text, summary)?;
    push_end(&mut text, summary)?;
    Ok(Text::from_string(text))
}

fn push_counts(text: &mut String, summary: &Summary) -> Result<(), AllocError>
    ensures { OnOk result (string_bytes text.new ≡ string_bytes text.old ++ codes "summary fired " ++ decimal summary.now.fired ++ codes " misfired " ++ decimal summary.now.misfired ++ codes " recovered " ++ decimal summary.now.recovered) }
{
    write!(
        text,
        "summary fired {} misfired {}",
        summary.fired, summary.misfired
    )?;
    write!(text, " recovered {}", summary.recovered)
}

/// How the tables are at the end.
fn push_end(text: &mut String, summary: &Summary) -> Result<(), AllocError>
    ensures { OnOk result (string_bytes text.new ≡ string_bytes text.old ++ codes " jobs " ++ decimal summary.now.jobs ++ codes " triggers " ++ decimal summary.now.triggers ++ codes " at " ++ signed_decimal summary.now.at ++ 10 ∷ []) }
{
    write!(
        text,
        " jobs {} triggers {} at {}\n",
        summary.jobs, summary.triggers, summary.at
    )
}
