//! Entries, both ways: a transaction of the trigger store, with its reading of the clock and its caller.
ghost use Rattle.std.specs.Prelude.{◌≡◌, ℕ, ℤ, IfOk, ◌≤◌, ◌++◌, length, OnOk, true, Ok};
ghost use Rattle.qz_types.specs.Rows.{is_node};
ghost use Rattle.qz_types.specs.declared.commands.Actor.TheVariants.{Client, Node};
ghost use Rattle.qz_values.specs.Reading.{Gives};
ghost use Rattle.qz_values.specs.Fields.{number};
ghost use Rattle.qz_codec.specs.Reading.{actor_at, Answers, entry_at, reading};
ghost use Rattle.qz_types.specs.Entries.{EntryData, is_entry};
ghost use Rattle.qz_codec.specs.declared.limits.TheConstants.{RECORD_LIMIT};
ghost use Rattle.qz_codec.specs.Values.{IsActor, IsEntry};
ghost use Rattle.qz_codec.specs.Layout.{member, actor, command, entry, entry as fields_of_entry, record_of};
ghost use Rattle.qz_codec.specs.Records.{IsRecord};
ghost use Rattle.qz_values.specs.declared.versions.Version.TheVariants.{Two};

use crate::commands::{command_of, put_whole_command};
use crate::errors::ReadError;
use crate::members::{member_of, put_member};
use crate::records::{Recorded, read_value, write};
use qz_civil::beside;
use qz_types::{Actor, Entry, List, NoMemory};
use qz_values::{Fault, Version, bool_at, i64_at, put_bool, put_i64, put_u32, u32_at};
use std::alloc::{AllocError, Global};

#[tactic(auto, unfolding(crate::specs::Reading::actor_at))]
fn actor_of(alloc: Global, bytes: &[u8]) -> Result<(Actor, &[u8]), Fault>
    ensures { Gives (λ x. (x.0, x.1.now)) result (actor_at bytes.now) }
{
    let (is_node, rest) = bool_at(bytes)?;
    if !is_node {
        return Ok((Actor::Client, rest));
    }
    let (member, rest) = member_of(alloc, rest)?;
    Ok((Actor::Node(member), rest))
}

#[tactic(auto, unfolding(crate::specs::Layout::actor))]
fn put_actor(out: &mut Vec<u8>, who: &Actor) -> Result<(), AllocError>
    ensures bytes { OnOk result (out.new.items ≡ out.old.items ++ actor who.now) }
    ensures valid { OnOk result (IsActor who.now) }
{
    match who {
        Actor::Client => put_bool(out, false),
        Actor::Node(row) => {
            put_bool(out, true)?;
            put_member(out, row)
        }
    }
}

#[tactic(auto, unfolding(crate::specs::Reading::entry_at, qz_types::specs::Entries::is_entry))]
fn entry_of(alloc: Global, version: Version, bytes: &[u8]) -> Result<(Entry, &[u8]), Fault>
    ensures { Gives (λ x. (x.0, x.1.now)) result (entry_at version bytes.now) }
{
    let (at, rest) = i64_at(bytes)?;
    let (actor, rest) = actor_of(alloc, rest)?;
    let (actor, (seat, rest)) = beside(actor, u32_at(rest))?;
    let command = command_of(alloc, version, &actor, rest);
    let (actor, (command, rest)) = beside(actor, command)?;
    let entry = Entry {
        at,
        actor,
        seat,
        command,
    };
    Ok((entry, rest))
}

#[tactic(auto, unfolding(crate::specs::Layout::entry, qz_types::specs::Entries::is_entry), using(qz_values::proofs::Signs::signs))]
fn put_entry(out: &mut Vec<u8>, e: &Entry) -> Result<(), AllocError>
    ensures bytes { OnOk result (out.new.items ≡ out.old.items ++ entry Two e.now) }
    ensures valid { OnOk result (IsEntry Two e.now) }
{
    put_i64(out, e.at)?;
    put_actor(out, &e.actor)?;
    put_u32(out, e.seat)?;
    put_whole_command(out, &e.command)
}

impl Recorded for Entry {
    ghost can_put = { λ e. Unit {0} };

    ghost fields = { entry };

    ghost has_record = { IsEntry };

    ghost fields_at = { entry_at };

    ghost most = { 17139 };

    fn put_fields(&self, out: &mut Vec<u8>) -> Result<(), AllocError> {
        put_entry(out, self)
    }

    fn fields_of(alloc: Global, version: Version, bytes: &[u8]) -> Result<(Entry, &[u8]), Fault> {
        entry_of(alloc, version, bytes)
    }

    fn is_format() {}
}

/// The record of an entry, in version two.
pub fn put_command(alloc: Global, entry: &Entry) -> Result<List<u8>, NoMemory>
    ensures bytes { IfOk result (λ bytes. bytes ≡ record_of entry.now) }
    ensures size { IfOk result (λ bytes. (1 ≤ length bytes) × (length bytes ≤ RECORD_LIMIT)) }
    // So its record is read as this entry.
    ensures valid { OnOk result (IsEntry Two entry.now) }
    // No other entry has this record.
    ensures unique { IfOk result (λ bytes. (e : EntryData) → IsRecord fields_of_entry IsEntry bytes e → e ≡ entry.now) }
{
    write(alloc, entry)
}

/// Reads the record of an entry, in version one or two, from any number of bytes. `BadRecord` comes only where they are no
/// such record, at the first wrong field, or at the record's end where bytes follow it; those aren't looked at.
/// `NoMemory` may come at any time.
pub fn get_command(alloc: Global, bytes: &[u8]) -> Result<Entry, ReadError>
    // The bytes are a record of what is read.
    ensures found { IfOk result (λ e. IsRecord entry IsEntry bytes.now e) }
    // A record of an entry is read as that entry, unless memory runs out.
    ensures only { (e : EntryData) → IsRecord entry IsEntry bytes.now e → Answers result (Ok e) }
    // Which place is the fault's.
    ensures exact { Answers result (reading bytes.now) }
{
    read_value(alloc, bytes)
}
