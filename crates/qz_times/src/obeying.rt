//! Lines that store a zone or a calendar.
ghost use Rattle.std.specs.Prelude.{IsTrue, IfOk};
ghost use Rattle.qz_types.specs.Entries.{is_entry};
ghost use Rattle.qz_model.specs.Transaction.{transaction};
ghost use Rattle.qz_times.specs.Known.{kept};
ghost use Rattle.qz_times.specs.Said.{KeepsHorizon, Obeyed, entry_of};

use crate::known::Known;
use crate::reply_lines::line_of;
use qz_civil::NoMemory;
use qz_steps::StepReply;
use qz_types::{Actor, Command, Entry, StepRefused, Text};
use std::alloc::Global;

/// Does what a client asks for, by the transaction of the trigger store. Where there is no memory, what is known is not to be
/// used further.
pub(crate) fn obey(alloc: Global, known: &mut Known, command: Command) -> Result<Text, NoMemory>
    requires valid { IsTrue (is_entry (entry_of command)) }
    requires keeps { KeepsHorizon command }
    ensures { IfOk result (λ text. Obeyed (transaction (kept known.old) (entry_of command)) (kept known.old) text (kept known.new)) }
{
    let entry = Entry {
        at: 0,
        actor: Actor::Client,
        seat: 0,
        command,
    };
    let obeyed = known.store.apply(&entry);
    drop(entry);
    match obeyed {
        Ok(reply) => line_of(alloc, StepReply::Ok(reply)),
        Err(StepRefused::Refused(refusal)) => line_of(alloc, StepReply::Refused(refusal)),
        Err(StepRefused::NoMemory) => Err(NoMemory),
    }
}
