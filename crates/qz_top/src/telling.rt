//! What a run tells: the lines of what it added to the trigger store's history, and the line that sums it up.
ghost use Rattle.std.specs.Prelude.{◌≡◌, ◌⊎◌, ◌≤◌, ◌<◌, ◌+◌, ◌^◌, ◌++◌, IfOk, length, true};
ghost use Rattle.qz_civil.specs.Causes.{Rose};
ghost use Rattle.qz_io.specs.Around.{output_alone};
ghost use Rattle.qz_model.specs.History.{replay};
ghost use Rattle.qz_report.specs.Summaries as summaries;
ghost use Rattle.qz_trigger_store.specs.View.{view, added_of, moments_of, replies_of, keeps_of};
ghost use Rattle.qz_top.specs.Found.{found_history};
ghost use Rattle.qz_top.specs.HandingOn.{HandsOnAll, HandsOnWritten};
ghost use Rattle.qz_top.specs.NodeRuns.{IsOfNodes, WritesRun, lines_since, text_since};

use crate::Status;
use crate::writing::write_text;
use qz_disk::Disk;
use qz_io::Sink;
use qz_report::{Counts, Summary, history_lines, summary_line};
use qz_trigger_store::TriggerStore;
use qz_types::{Entry, NoMemory, Reply, Text};
use std::alloc::Global;

/// Writes the lines of what the store accepted since it was opened, numbered on from what it had, and the summary line. It
/// answers the status, or why not all was written.
#[tactic(auto, using(crate::proofs::TellingLaws::wrote_none))]
pub fn tell_run<K: Sink, D: Disk>(
    alloc: Global,
    triggers: &TriggerStore<D>,
    status: Status,
    out: &mut K,
) -> Status
    requires status { IsOfNodes status }
    requires keeps { keeps_of triggers.now ≡ true }
    ensures written { WritesRun result (text_since (found_history triggers.now) (replay (view triggers.now).history) (added_of triggers.now)) (output_alone K.Sink out.old) (output_alone K.Sink out.new) }
    ensures status { (result ≡ status) ⊎ (result ≡ Status.WriteFault) ⊎ (result ≡ Status.NoMemory) }
    ensures write { result ≡ Status.WriteFault → Rose (K.faults out.old) (K.faults out.new) }
    ensures handed { HandsOnWritten K.Sink out.old out.new }
{
    match text_of(alloc, triggers) {
        Ok(text) => tell(out, text.as_str(), status),
        Err(_) => Status::NoMemory,
    }
}

/// The same, with other lines before them. All is written at once.
#[tactic(auto, using(crate::proofs::TellingLaws::wrote_none))]
pub fn tell_run_after<K: Sink, D: Disk>(
    alloc: Global,
    before: &Text,
    triggers: &TriggerStore<D>,
    status: Status,
    out: &mut K,
) -> Status
    requires status { IsOfNodes status }
    requires keeps { keeps_of triggers.now ≡ true }
    ensures written { WritesRun result (before.now ++ text_since (found_history triggers.now) (replay (view triggers.now).history) (added_of triggers.now)) (output_alone K.Sink out.old) (output_alone K.Sink out.new) }
    ensures status { (result ≡ status) ⊎ (result ≡ Status.WriteFault) ⊎ (result ≡ Status.NoMemory) }
    ensures write { result ≡ Status.WriteFault → Rose (K.faults out.old) (K.faults out.new) }
    ensures handed { HandsOnWritten K.Sink out.old out.new }
{
    match text_after(alloc, before, triggers) {
        Ok(text) => tell(out, text.as_str(), status),
        Err(_) => Status::NoMemory,
    }
}

/// Writes the line that sums up what the store accepted since it was opened. It answers the status, or why it isn't written.
#[tactic(auto, using(crate::proofs::TellingLaws::wrote_none))]
pub(crate) fn tell_summary<K: Sink, D: Disk>(
    alloc: Global,
    triggers: &TriggerStore<D>,
    status: Status,
    out: &mut K,
) -> Status
    requires status { IsOfNodes status }
    requires keeps { keeps_of triggers.now ≡ true }
    ensures written { WritesRun result (summaries.summary_text (summaries.summary_of (added_of triggers.now) (replies_of triggers.now) (replay (view triggers.now).history))) (output_alone K.Sink out.old) (output_alone K.Sink out.new) }
    ensures status { (result ≡ status) ⊎ (result ≡ Status.WriteFault) ⊎ (result ≡ Status.NoMemory) }
    ensures write { result ≡ Status.WriteFault → Rose (K.faults out.old) (K.faults out.new) }
    ensures handed { HandsOnWritten K.Sink out.old out.new }
{
    match summary_line(alloc, &summary_of(triggers)) {
        Ok(text) => tell(out, text.as_str(), status),
        Err(_) => Status::NoMemory,
    }
}

// Writes a text, and answers the status, or that the output failed.
#[tactic(auto, using(crate::proofs::TellingLaws::wrote_all))]
fn tell<K: Sink>(out: &mut K, text: &str, status: Status) -> Status
    requires { IsOfNodes status }
    ensures written { WritesRun result text.now (output_alone K.Sink out.old) (output_alone K.Sink out.new) }
    ensures status { (result ≡ status) ⊎ (result ≡ Status.WriteFault) }
    ensures write { result ≡ Status.WriteFault → Rose (K.faults out.old) (K.faults out.new) }
    ensures handed { HandsOnAll K.Sink out.old out.new }
{
    match write_text(out, text) {
        Status::WriteFault => Status::WriteFault,
        _ => status,
    }
}

// The lines and the summary line.
fn text_of<D: Disk>(alloc: Global, triggers: &TriggerStore<D>) -> Result<Text, NoMemory>
    requires { keeps_of triggers.now ≡ true }
    ensures { IfOk result (λ text. text ≡ text_since (found_history triggers.now) (replay (view triggers.now).history) (added_of triggers.now)) }
{
    let lines = lines_of(alloc, triggers)?;
    let summary = summary_line(alloc, &summary_of(triggers))?;
    joined(alloc, &lines, &summary)
}

// Other lines, and then these.
fn text_after<D: Disk>(
    alloc: Global,
    before: &Text,
    triggers: &TriggerStore<D>,
) -> Result<Text, NoMemory>
    requires { keeps_of triggers.now ≡ true }
    ensures { IfOk result (λ text. text ≡ before.now ++ text_since (found_history triggers.now) (replay (view triggers.now).history) (added_of triggers.now)) }
{
    let text = text_of(alloc, triggers)?;
    joined(alloc, before, &text)
}

// The lines of what the store accepted since it was opened. A number past 64 bits would want more memory than there is.
fn lines_of<D: Disk>(alloc: Global, triggers: &TriggerStore<D>) -> Result<Text, NoMemory>
    requires { keeps_of triggers.now ≡ true }
    ensures { IfOk result (λ text. text ≡ lines_since (found_history triggers.now) (added_of triggers.now)) }
{
    let added = kept_entries(triggers);
    let before = triggers.history_len() - added.len() as u64;
    if triggers.history_len() >= u64::MAX - 1 {
        return Err(NoMemory);
    }
    history_lines(
        alloc,
        added,
        kept_moments(triggers),
        kept_replies(triggers),
        before + 1,
    )
}

// What the store accepted since it was opened comes to.
fn summary_of<D: Disk>(triggers: &TriggerStore<D>) -> Summary
    requires { keeps_of triggers.now ≡ true }
    ensures { result ≡ summaries.summary_of (added_of triggers.now) (replies_of triggers.now) (replay (view triggers.now).history) }
{
    let counts = counts_of(kept_entries(triggers), kept_replies(triggers));
    let tables = triggers.tables();
    Summary {
        fired: counts.fired,
        misfired: counts.misfired,
        recovered: counts.recovered,
        jobs: tables.len_jobs() as u64,
        triggers: tables.len_triggers() as u64,
        at: tables.last_moment(),
    }
}

// The entries that the store accepted since it was opened.
fn kept_entries<D: Disk>(triggers: &TriggerStore<D>) -> &[Entry]
    requires { keeps_of triggers.now ≡ true }
    ensures { result.now ≡ added_of triggers.now }
{
    match triggers.accepted() {
        Some(accepted) => accepted.entries(),
        None => unreachable!(),
    }
}

// Their recorded moments.
fn kept_moments<D: Disk>(triggers: &TriggerStore<D>) -> &[i64]
    requires { keeps_of triggers.now ≡ true }
    ensures { result.now ≡ moments_of triggers.now }
{
    match triggers.accepted() {
        Some(accepted) => accepted.moments(),
        None => unreachable!(),
    }
}

// The replies to them.
fn kept_replies<D: Disk>(triggers: &TriggerStore<D>) -> &[Reply]
    requires { keeps_of triggers.now ≡ true }
    ensures { result.now ≡ replies_of triggers.now }
{
    match triggers.accepted() {
        Some(accepted) => accepted.replies(),
        None => unreachable!(),
    }
}

fn counts_of(entries: &[Entry], replies: &[Reply]) -> Counts
    requires { length replies.now ≡ length entries.now }
    ensures { result ≡ summaries.counts_of entries.now replies.now }
{
    let mut counts = Counts::new();
    for i in 0..entries.len() {
        counts.add(&entries[i], &replies[i]);
    }
    counts
}

fn joined(alloc: Global, lines: &Text, last: &Text) -> Result<Text, NoMemory>
    ensures { IfOk result (λ text. text ≡ lines.now ++ last.now) }
{
    let mut text = String::new(alloc);
    text.push_str(lines.as_str())?;
    text.push_str(last.as_str())?;
    Ok(Text::from_string(text))
}
