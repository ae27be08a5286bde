//! Lines of members, of what they have in their hands, and of their check-ins.
ghost use Rattle.std.specs.Prelude.{◌≡◌, ◌++◌, OnOk, string_bytes};
ghost use Rattle.std.specs.List.{flat_map};
ghost use Rattle.qz_listing.specs.Lines as spec;

use crate::lines::Line;
use qz_report::{push_fired_row, push_name};
use qz_types::{FiredRow, MemberRow, StateRow};
use std::alloc::AllocError;
use std::fmt::Write;

impl Line for MemberRow {
    ghost line = { λ m. spec.member_line m };

    fn push_line(&self, text: &mut String) -> Result<(), AllocError> {
        text.push_str("member ")?;
        push_name(text, self.node.as_str())?;
        write!(text, " {}\n", self.epoch)
    }
}

impl Line for FiredRow {
    ghost line = { λ f. spec.fired_line f };

    fn push_line(&self, text: &mut String) -> Result<(), AllocError> {
        text.push_str("fired ")?;
        push_fired_row(text, self)?;
        text.push('\n')
    }
}

/// Adds the line of each row of the state store.
pub(crate) fn push_states(text: &mut String, states: &[StateRow]) -> Result<(), AllocError>
    ensures { OnOk result (string_bytes text.new ≡ string_bytes text.old ++ flat_map spec.state_line states.now) }
{
    for state in states {
        push_state(text, state)?;
    }
    Ok(())
}

fn push_state(text: &mut String, state: &StateRow) -> Result<(), AllocError>
    ensures { OnOk result (string_bytes text.new ≡ string_bytes text.old ++ spec.state_line state.now) }
{
    text.push_str("state ")?;
    push_name(text, state.node.as_str())?;
    write!(text, " last {} interval {}\n", state.last, state.interval)
}
