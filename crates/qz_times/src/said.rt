//! What is said to a line.
ghost use Rattle.std.specs.Prelude.{negsuc, ◌≤ℤ◌, IsTrue, IfOk, IfErr, IfSome};
ghost use Rattle.qz_job_json.specs.Asked.{is_asked};
ghost use Rattle.qz_job_json.specs.Lines.{ReadsLineAs};
ghost use Rattle.qz_times.specs.Known.{kept};
ghost use Rattle.qz_times.specs.Said.{line_meaning, LineSaid};
ghost use Rattle.qz_times.specs.Answers.{NotSaid};

use crate::ends::LineEnd;
use crate::known::Known;
use crate::queries::Query;
use crate::telling::say;
use qz_civil::{LAST, Text};
use qz_job_json::{Asked, LineError, read_asked};
use std::alloc::Global;

/// What is said to a line: nothing to a blank one.
pub(crate) fn answer_to(
    alloc: Global,
    line: &[u8],
    known: &mut Known,
    query: Query,
) -> Result<Text, LineEnd>
    requires low { negsuc 0 ≤ℤ query.after }
    requires high { query.after ≤ℤ LAST }
    ensures ok { IfOk result (λ text. LineSaid query (kept known.old) line.now text (kept known.new)) }
    ensures err { IfErr result (λ end. NotSaid end line.now) }
{
    match read_line(alloc, line) {
        Ok(None) => Ok(Text::new(alloc)),
        Ok(Some(asked)) => match say(alloc, asked, known, query) {
            Ok(text) => Ok(text),
            Err(_) => Err(LineEnd::NoMemory),
        },
        Err(LineError::NoMemory) => Err(LineEnd::NoMemory),
        Err(LineError::Bad(fault)) => Err(LineEnd::Bad(fault)),
    }
}

#[tactic(auto, unfolding(crate::specs::Said::line_meaning))]
fn read_line(alloc: Global, line: &[u8]) -> Result<Option<Asked>, LineError>
    ensures meaning { ReadsLineAs result line.now (line_meaning line.now) }
    ensures valid { IfOk result (λ asked. IfSome asked (λ a. IsTrue (is_asked a))) }
{
    read_asked(alloc, line)
}
