//! The line of a reply.
ghost use Rattle.std.specs.Prelude.{◌≡◌, IfOk};
ghost use Rattle.qz_report.specs.Replies.{reply_text};

use qz_civil::NoMemory;
use qz_report::reply_line;
use qz_steps::StepReply;
use qz_types::Text;
use std::alloc::Global;

/// The line of a reply, which is let go.
pub(crate) fn line_of(alloc: Global, reply: StepReply) -> Result<Text, NoMemory>
    ensures { IfOk result (λ text. text ≡ reply_text reply) }
{
    let line = reply_line(alloc, &reply);
    drop(reply);
    line
}
