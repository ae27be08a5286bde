//! How full the stores are, and what came of a checkpoint.
ghost use Rattle.std.specs.Prelude.{◌≡◌, ◌++◌, OnOk, string_bytes};
ghost use Rattle.qz_report.specs.Rooms.{behind_text, marked_text, room_text, states_text, triggers_text};

use qz_steps::{Fill, Marked, Room};
use std::alloc::AllocError;
use std::fmt::Write;

/// Adds what came of a checkpoint.
pub(crate) fn push_marked(text: &mut String, marked: Marked) -> Result<(), AllocError>
    ensures { OnOk result (string_bytes text.new ≡ string_bytes text.old ++ marked_text marked) }
{
    match marked {
        Marked::Made => text.push_str("checkpoint made"),
        Marked::NoRoom => text.push_str("checkpoint no room"),
    }
}

/// Adds how full both stores are.
pub(crate) fn push_room(text: &mut String, room: &Room) -> Result<(), AllocError>
    ensures { OnOk result (string_bytes text.new ≡ string_bytes text.old ++ room_text room.now) }
{
    push_triggers(text, room.triggers)?;
    push_behind(text, room.behind)?;
    push_states(text, room.states)
}

#[tactic(auto, unfolding(crate::specs::Rooms::triggers_text))]
fn push_triggers(text: &mut String, fill: Fill) -> Result<(), AllocError>
    ensures { OnOk result (string_bytes text.new ≡ string_bytes text.old ++ triggers_text fill) }
{
    let Fill { bytes, payloads } = fill;
    write!(text, "room triggers {bytes} {payloads}")
}

#[tactic(auto, unfolding(crate::specs::Rooms::behind_text))]
fn push_behind(text: &mut String, behind: u64) -> Result<(), AllocError>
    ensures { OnOk result (string_bytes text.new ≡ string_bytes text.old ++ behind_text behind) }
{
    write!(text, " behind {behind}")
}

#[tactic(auto, unfolding(crate::specs::Rooms::states_text))]
fn push_states(text: &mut String, fill: Fill) -> Result<(), AllocError>
    ensures { OnOk result (string_bytes text.new ≡ string_bytes text.old ++ states_text fill) }
{
    let Fill { bytes, payloads } = fill;
    write!(text, " states {bytes} {payloads}")
}
