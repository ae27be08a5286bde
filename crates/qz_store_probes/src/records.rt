//! Records of entries and of rows.
ghost use Rattle.std.specs.Prelude.{◌≡◌, ◌≤◌, length, Ok, IfOk, OnOk};
ghost use Rattle.qz_types.specs.Entries.{EntryData, StateEntryData};
ghost use Rattle.qz_codec.specs.Layout.{entry as entry_fields, record_of};
ghost use Rattle.qz_codec.specs.Reading.{Answers, itself, reading, reading_by};
ghost use Rattle.qz_codec.specs.Records.{IsRecord, recorded};
ghost use Rattle.qz_codec.specs.States.{IsStateEntry, IsStateRecord, meant, state_entry_at, state_fields};
ghost use Rattle.qz_codec.specs.Values.{IsEntry};
ghost use Rattle.qz_values.specs.declared.versions.Version.TheVariants.{Two};

use qz_codec::{RECORD_LIMIT, ReadError, Row};
use qz_types::{Entry, List, NoMemory, StateEntry};
use std::alloc::Global;

/// Writes the record of an entry, as `qz_codec::put_command` does.
pub fn put_command(alloc: Global, entry: &Entry) -> Result<List<u8>, NoMemory>
    ensures bytes { IfOk result (λ bytes. bytes ≡ record_of entry.now) }
    ensures size { IfOk result (λ bytes. (1 ≤ length bytes) × (length bytes ≤ RECORD_LIMIT)) }
    ensures valid { OnOk result (IsEntry Two entry.now) }
    ensures unique { IfOk result (λ bytes. (e : EntryData) → IsRecord entry_fields IsEntry bytes e → e ≡ entry.now) }
{
    qz_codec::put_command(alloc, entry)
}

/// Reads the record of an entry, as `qz_codec::get_command` does.
pub fn get_command(alloc: Global, bytes: &[u8]) -> Result<Entry, ReadError>
    ensures found { IfOk result (λ e. IsRecord entry_fields IsEntry bytes.now e) }
    ensures only { (e : EntryData) → IsRecord entry_fields IsEntry bytes.now e → Answers result (Ok e) }
    ensures exact { Answers result (reading bytes.now) }
{
    qz_codec::get_command(alloc, bytes)
}

/// Writes the record of a check-in or a removal, as `qz_codec::put_state` does.
pub fn put_state(alloc: Global, entry: &StateEntry) -> Result<List<u8>, NoMemory>
    ensures bytes { IfOk result (λ bytes. bytes ≡ recorded state_fields Two entry.now) }
    ensures size { IfOk result (λ bytes. (1 ≤ length bytes) × (length bytes ≤ RECORD_LIMIT)) }
    ensures valid { OnOk result (IsStateEntry entry.now) }
    ensures unique { IfOk result (λ bytes. (e : StateEntryData) → IsStateRecord bytes e → e ≡ entry.now) }
{
    qz_codec::put_state(alloc, entry)
}

/// Reads the record of a check-in or a removal, as `qz_codec::get_state` does.
pub fn get_state(alloc: Global, bytes: &[u8]) -> Result<StateEntry, ReadError>
    ensures found { IfOk result (λ e. IsStateRecord bytes.now e) }
    ensures only { (e : StateEntryData) → IsStateRecord bytes.now e → Answers result (Ok e) }
    ensures exact { Answers result (reading_by meant (λ version. state_entry_at) bytes.now) }
{
    qz_codec::get_state(alloc, bytes)
}

/// Writes the record of a row, as `qz_codec::put_row` does.
pub fn put_row<R: Row>(alloc: Global, row: &R) -> Result<List<u8>, NoMemory>
    requires { R.can_put row.now }
    ensures bytes { IfOk result (λ bytes. bytes ≡ recorded R.fields Two row.now) }
    ensures size { IfOk result (λ bytes. (1 ≤ length bytes) × (length bytes ≤ RECORD_LIMIT)) }
    ensures valid { OnOk result (R.has_record Two row.now) }
    ensures unique { IfOk result (λ bytes. (other : R) → IsRecord R.fields R.has_record bytes other → other ≡ row.now) }
{
    qz_codec::put_row(alloc, row)
}

/// Reads the record of a row, as `qz_codec::get_row` does.
pub fn get_row<R: Row>(alloc: Global, bytes: &[u8]) -> Result<R, ReadError>
    ensures found { IfOk result (λ row. IsRecord R.fields R.has_record bytes.now row) }
    ensures only { (row : R) → IsRecord R.fields R.has_record bytes.now row → Answers result (Ok row) }
    ensures exact { Answers result (reading_by itself R.fields_at bytes.now) }
{
    qz_codec::get_row(alloc, bytes)
}
