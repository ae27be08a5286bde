//! Texts of what the scheduler answers and stores.
ghost use Rattle.std.specs.Prelude.{◌≡◌, ◌++◌, IfOk, OnOk, string_bytes};
ghost use Rattle.qz_report.specs.Histories as histories;
ghost use Rattle.qz_report.specs.Replies.{reply_text};
ghost use Rattle.qz_report.specs.Rows.{job_text, trigger_text};
ghost use Rattle.qz_report.specs.Summaries.{summary_text};

use qz_report::Summary;
use qz_steps::StepReply;
use qz_types::{Entry, JobRow, NoMemory, Reply, Text, TriggerRow};
use std::alloc::{AllocError, Global};

/// The line of a reply, as `qz_report::reply_line` makes it.
pub fn reply_line(alloc: Global, reply: &StepReply) -> Result<Text, NoMemory>
    ensures { IfOk result (λ text. text ≡ reply_text reply.now) }
{
    qz_report::reply_line(alloc, reply)
}

/// The line of an entry of a history, as `qz_report::history_line` makes it.
pub fn history_line(
    alloc: Global,
    number: u64,
    moment: i64,
    entry: &Entry,
    reply: &Reply,
) -> Result<Text, NoMemory>
    ensures { IfOk result (λ text. text ≡ histories.history_line number moment entry.now reply.now) }
{
    qz_report::history_line(alloc, number, moment, entry, reply)
}

/// The line that sums a history up, as `qz_report::summary_line` makes it.
pub fn summary_line(alloc: Global, summary: &Summary) -> Result<Text, NoMemory>
    ensures { IfOk result (λ text. text ≡ summary_text summary.now) }
{
    qz_report::summary_line(alloc, summary)
}

/// Adds the text of a job, as `qz_report::push_job` does.
pub fn push_job(text: &mut String, job: &JobRow) -> Result<(), AllocError>
    ensures { OnOk result (string_bytes text.new ≡ string_bytes text.old ++ job_text job.now) }
{
    qz_report::push_job(text, job)
}

/// Adds the text of a trigger, as `qz_report::push_trigger` does.
pub fn push_trigger(text: &mut String, trigger: &TriggerRow) -> Result<(), AllocError>
    ensures { OnOk result (string_bytes text.new ≡ string_bytes text.old ++ trigger_text trigger.now) }
{
    qz_report::push_trigger(text, trigger)
}
