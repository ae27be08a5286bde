//! Reading the fields of a node's commands.
ghost use Rattle.std.specs.Prelude.{◌≡◌, ◌≤◌, IsTrue, IfOk, true};
ghost use Rattle.std.specs.Int.{w32, w64};
ghost use Rattle.qz_types.specs.Entries.{is_command, is_of_node};
ghost use Rattle.qz_types.specs.declared.commands.Command.TheVariants.{Release, Fire, Recover};
ghost use Rattle.qz_values.specs.Fields.{is_long, as_variant, checked, number_at};
ghost use Rattle.qz_values.specs.Reading.{Gives};
ghost use Rattle.qz_codec.specs.Reading.{node_at, acquire_at, complete_at};

use crate::codes::code_in;
use crate::members::owned_node_of;
use qz_types::{ACQUIRE_LIMIT, Command};
use qz_values::{Fault, span_of, u32_at, u64_at};
use std::alloc::Global;

/// How many triggers an Acquire asks for.
fn max_of(bytes: &[u8]) -> Result<(u32, &[u8]), Fault>
    ensures exact { Gives (λ x. (x.0, x.1.now)) result (checked (is_long 1 ACQUIRE_LIMIT) (number_at w32) bytes.now) }
    ensures valid { IfOk result (λ x. (1 ≤ x.0) × (x.0 ≤ ACQUIRE_LIMIT)) }
{
    match u32_at(bytes) {
        Ok((max, _)) if max < 1 || max > ACQUIRE_LIMIT => Err(Fault::at(bytes)),
        read => read,
    }
}

#[tactic(auto, unfolding(crate::specs::Reading::acquire_at))]
pub(super) fn acquire_of(bytes: &[u8]) -> Result<(Command, &[u8]), Fault>
    ensures exact { Gives (λ x. (x.0, x.1.now)) result (acquire_at bytes.now) }
    ensures valid { IfOk result (λ x. IsTrue (is_command x.0) × (is_of_node x.0 ≡ true)) }
{
    let (no_later, rest) = span_of(bytes)?;
    let (window, rest) = span_of(rest)?;
    let (max, rest) = max_of(rest)?;
    let command = Command::Acquire {
        no_later,
        window,
        max,
    };
    Ok((command, rest))
}

pub(super) fn release_of(bytes: &[u8]) -> Result<(Command, &[u8]), Fault>
    ensures exact { Gives (λ x. (x.0, x.1.now)) result (as_variant Release (number_at w64 bytes.now)) }
    ensures valid { IfOk result (λ x. IsTrue (is_command x.0) × (is_of_node x.0 ≡ true)) }
{
    let (entry, rest) = u64_at(bytes)?;
    Ok((Command::Release { entry }, rest))
}

pub(super) fn fire_of(bytes: &[u8]) -> Result<(Command, &[u8]), Fault>
    ensures exact { Gives (λ x. (x.0, x.1.now)) result (as_variant Fire (number_at w64 bytes.now)) }
    ensures valid { IfOk result (λ x. IsTrue (is_command x.0) × (is_of_node x.0 ≡ true)) }
{
    let (entry, rest) = u64_at(bytes)?;
    Ok((Command::Fire { entry }, rest))
}

#[tactic(auto, unfolding(crate::specs::Reading::complete_at))]
pub(super) fn complete_of(bytes: &[u8]) -> Result<(Command, &[u8]), Fault>
    ensures exact { Gives (λ x. (x.0, x.1.now)) result (complete_at bytes.now) }
    ensures valid { IfOk result (λ x. IsTrue (is_command x.0) × (is_of_node x.0 ≡ true)) }
{
    let (entry, rest) = u64_at(bytes)?;
    let (code, rest) = code_in(rest)?;
    Ok((Command::Complete { entry, code }, rest))
}

pub(super) fn recover_of(alloc: Global, bytes: &[u8]) -> Result<(Command, &[u8]), Fault>
    ensures exact { Gives (λ x. (x.0, x.1.now)) result (as_variant Recover (node_at bytes.now)) }
    ensures valid { IfOk result (λ x. IsTrue (is_command x.0) × (is_of_node x.0 ≡ true)) }
{
    let (node, rest) = owned_node_of(alloc, bytes)?;
    Ok((Command::Recover { node }, rest))
}
