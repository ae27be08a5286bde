//! Records of state entries.
ghost use Rattle.std.specs.Prelude.{◌≡◌, ◌≤◌, ◌++◌, ℕ, length, IfOk, OnOk, IsTrue, Ok};
ghost use Rattle.qz_types.specs.Entries.{StateEntryData, is_state_command};
ghost use Rattle.qz_codec.specs.declared.limits.TheConstants.{RECORD_LIMIT};
ghost use Rattle.qz_codec.specs.Records.{recorded};
ghost use Rattle.qz_values.specs.declared.versions.Version.TheVariants.{Two};
ghost use Rattle.qz_values.specs.Reading.{Gives};
ghost use Rattle.qz_codec.specs.Reading.{Answers, reading_by};
ghost use Rattle.qz_codec.specs.States.{state_command, state_entry, state_fields, IsStateCommand, IsStateEntry, check_in_at, forget_at, state_command_at, state_entry_at, clamped, meant, IsStateRecord};

use crate::check_ins::{interval_of, put_interval};
use crate::errors::ReadError;
use crate::members::{node_of, put_node};
use crate::records::{Recorded, read, write};
use qz_civil::VERSION_ONE_LAST;
use qz_types::{List, NoMemory, StateCommand, StateEntry, Text};
use qz_values::{Fault, Version, i64_at, put_i64, put_u8, put_u32, u8_at, u32_at};
use std::alloc::{AllocError, Global};

#[tactic(auto, unfolding(crate::specs::States::check_in_at))]
fn check_in_of(alloc: Global, bytes: &[u8]) -> Result<(StateCommand, &[u8]), Fault>
    ensures exact { Gives (λ x. (x.0, x.1.now)) result (check_in_at bytes.now) }
    ensures valid { IfOk result (λ x. IsTrue (is_state_command x.0)) }
{
    let (node, rest) = node_of(bytes)?;
    let (interval, rest) = interval_of(rest)?;
    let node = Text::from_str(alloc, node)?;
    Ok((StateCommand::CheckIn { node, interval }, rest))
}

#[tactic(auto, unfolding(crate::specs::States::forget_at))]
fn forget_of(alloc: Global, bytes: &[u8]) -> Result<(StateCommand, &[u8]), Fault>
    ensures exact { Gives (λ x. (x.0, x.1.now)) result (forget_at bytes.now) }
    ensures valid { IfOk result (λ x. IsTrue (is_state_command x.0)) }
{
    let (node, rest) = node_of(bytes)?;
    let (last, rest) = i64_at(rest)?;
    let node = Text::from_str(alloc, node)?;
    Ok((StateCommand::Forget { node, last }, rest))
}

#[tactic(auto, unfolding(crate::specs::States::state_command_at))]
fn state_command_of(alloc: Global, bytes: &[u8]) -> Result<(StateCommand, &[u8]), Fault>
    ensures exact { Gives (λ x. (x.0, x.1.now)) result (state_command_at bytes.now) }
    ensures valid { IfOk result (λ x. IsTrue (is_state_command x.0)) }
{
    let (place, rest) = u8_at(bytes)?;
    match place {
        0 => check_in_of(alloc, rest),
        1 => forget_of(alloc, rest),
        _ => Err(Fault::at(bytes)),
    }
}

#[tactic(auto, unfolding(crate::specs::States::state_entry_at))]
fn state_entry_of(alloc: Global, bytes: &[u8]) -> Result<(StateEntry, &[u8]), Fault>
    ensures { Gives (λ x. (x.0, x.1.now)) result (state_entry_at bytes.now) }
{
    let (at, rest) = i64_at(bytes)?;
    let (seat, rest) = u32_at(rest)?;
    let (command, rest) = state_command_of(alloc, rest)?;
    Ok((StateEntry { at, seat, command }, rest))
}

#[tactic(auto, unfolding(crate::specs::States::state_command), using(qz_values::proofs::Signs::signs))]
fn put_state_command(out: &mut Vec<u8>, command: &StateCommand) -> Result<(), AllocError>
    requires { IsTrue (is_state_command command.now) }
    ensures bytes { OnOk result (out.new.items ≡ out.old.items ++ state_command command.now) }
    ensures valid { OnOk result (IsStateCommand command.now) }
{
    match command {
        StateCommand::CheckIn { node, interval } => {
            put_u8(out, 0)?;
            put_node(out, node)?;
            put_interval(out, *interval)
        }
        StateCommand::Forget { node, last } => {
            put_u8(out, 1)?;
            put_node(out, node)?;
            put_i64(out, *last)
        }
    }
}

#[tactic(auto, unfolding(crate::specs::States::state_entry), using(qz_values::proofs::Signs::signs))]
fn put_state_entry(out: &mut Vec<u8>, entry: &StateEntry) -> Result<(), AllocError>
    ensures bytes { OnOk result (out.new.items ≡ out.old.items ++ state_entry entry.now) }
    ensures valid { OnOk result (IsStateEntry entry.now) }
{
    put_i64(out, entry.at)?;
    put_u32(out, entry.seat)?;
    put_state_command(out, &entry.command)
}

impl Recorded for StateEntry {
    ghost can_put = { λ e. Unit {0} };

    ghost fields = { state_fields };

    ghost has_record = { λ version. IsStateEntry };

    ghost fields_at = { λ version. state_entry_at };

    ghost most = { 143 };

    fn put_fields(&self, out: &mut Vec<u8>) -> Result<(), AllocError> {
        put_state_entry(out, self)
    }

    fn fields_of(
        alloc: Global,
        _version: Version,
        bytes: &[u8],
    ) -> Result<(StateEntry, &[u8]), Fault> {
        state_entry_of(alloc, bytes)
    }

    fn is_format() {}
}

/// The record of a state entry, in version two.
pub fn put_state(alloc: Global, entry: &StateEntry) -> Result<List<u8>, NoMemory>
    ensures bytes { IfOk result (λ bytes. bytes ≡ recorded state_fields Two entry.now) }
    ensures size { IfOk result (λ bytes. (1 ≤ length bytes) × (length bytes ≤ RECORD_LIMIT)) }
    // So its record is read as this entry.
    ensures valid { OnOk result (IsStateEntry entry.now) }
    // No other entry has this record.
    ensures unique { IfOk result (λ bytes. (e : StateEntryData) → IsStateRecord bytes e → e ≡ entry.now) }
{
    write(alloc, entry)
}

/// The moment that is nearest to this reading of the clock and that stores of version one know.
fn clamp(ms: i64) -> i64
    ensures { result ≡ clamped ms }
{
    ms.min(VERSION_ONE_LAST).max(0)
}

/// What an entry that stands in a record of this version means.
fn meaning(version: Version, entry: StateEntry) -> StateEntry
    ensures { result ≡ meant version entry }
{
    match version {
        Version::One => {
            let StateEntry { at, seat, command } = entry;
            StateEntry {
                at: clamp(at),
                seat,
                command,
            }
        }
        Version::Two => entry,
    }
}

/// Reads the record of a state entry, in version one or two, from any number of bytes. Of a record of version one the
/// reading is clamped to 0 to `VERSION_ONE_LAST`. `BadRecord` comes only where the bytes are no such record, at the first
/// wrong field, or at the record's end where bytes follow it; those aren't looked at. `NoMemory` may come at any time.
pub fn get_state(alloc: Global, bytes: &[u8]) -> Result<StateEntry, ReadError>
    // The bytes are a record of what is read.
    ensures found { IfOk result (λ e. IsStateRecord bytes.now e) }
    // A record of an entry is read as that entry, unless memory runs out.
    ensures only { (e : StateEntryData) → IsStateRecord bytes.now e → Answers result (Ok e) }
    // Which place is the fault's.
    ensures exact { Answers result (reading_by meant (λ version. state_entry_at) bytes.now) }
{
    let (version, entry) = read(alloc, bytes)?;
    Ok(meaning(version, entry))
}
