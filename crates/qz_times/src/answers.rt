//! The handler of the lines.
ghost use Rattle.std.specs.Prelude.{negsuc, ◌≤ℤ◌};
ghost use Rattle.qz_civil.specs.declared.limits.TheConstants.{LAST};

use crate::ends::LineEnd;
use crate::known::Known;
use crate::queries::Query;
use crate::said::answer_to;
use qz_io::{LineHandler, Sink, write_all};
use std::alloc::Global;

/// The lines of an input being answered: what is asked for, and what the lines so far have stored.
#[derive(Drop)]
pub(crate) struct Answering {
    pub(crate) alloc: Global,
    pub(crate) query: Query,
    pub(crate) known: Known,
    ghost low: { negsuc 0 ≤ℤ query.after },
    ghost high: { query.after ≤ℤ LAST },
}

impl<K: Sink> LineHandler<K, ()> for Answering {
    ghost use Rattle.qz_times.specs.Answers.{Answers};

    type Error = LineEnd;

    ghost handles = { Answers K.Sink };

    fn handle(&mut self, line: &[u8], out: &mut K, _rest: &mut ()) -> Result<(), LineEnd> {
        let text = answer_to(self.alloc, line, &mut self.known, self.query)?;
        match write_all(out, text.as_str().as_bytes()) {
            Ok(()) => Ok(()),
            Err(_) => Err(LineEnd::WriteFault),
        }
    }
}
