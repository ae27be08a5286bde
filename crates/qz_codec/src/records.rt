//! Records: the version, and what stands after it, once for all that has a record. They are written in version two, and
//! read in both.
ghost use Rattle.std.specs.Prelude.{◌≡◌, ◌+◌, ◌≤◌, ◌++◌, ℕ, length, IfOk, OnOk, Ok};
ghost use Rattle.qz_codec.specs.declared.limits.TheConstants.{RECORD_LIMIT};
ghost use Rattle.qz_codec.specs.Records.{recorded, IsRecord};
ghost use Rattle.qz_values.specs.Reading.{Gives};
ghost use Rattle.qz_codec.specs.Reading.{Answers, version_of, version_at, whole_at, reading_by, with_version, itself};
ghost use Rattle.qz_values.specs.declared.versions.Version.{Version as Versions};
ghost use Rattle.qz_values.specs.declared.versions.Version.TheVariants.{Two};

use crate::errors::ReadError;
use crate::limits::VERSION;
use qz_types::{List, NoMemory};
use qz_values::{Fault, Version, u8_at};
use std::alloc::{AllocError, Global};

/// Bytes that most records have room in, so that few buffers grow.
const USUAL_SIZE: usize = 256;

/// What has a record: the fields that stand after its version.
pub trait Recorded: Sized + Drop {
    ghost use Rattle.std.specs.Prelude.{ℕ, ◌<◌, List};
    ghost use Rattle.qz_codec.specs.declared.limits.TheConstants.{RECORD_LIMIT};
    ghost use Rattle.qz_values.specs.Fields.{Read};
    ghost use Rattle.qz_values.specs.Formats.{IsFormat, Any};
    ghost use Rattle.qz_values.specs.declared.versions.Version.{Version as Versions};
    ghost use Rattle.qz_values.specs.declared.versions.Version.TheVariants.{Two};

    /// Which values may be written. A value that is valid by its type always may.
    ghost can_put: { Self → Type 0 };

    /// The bytes of the fields, in a record of a version.
    ghost fields: { Versions → Self → List ℕ };

    /// Which values have a record of a version.
    ghost has_record: { Versions → Self → Type 0 };

    /// What is read at the front of these bytes, in a record of a version.
    ghost fields_at: { Versions → List ℕ → Read Self };

    /// The most bytes that the fields have.
    ghost most: { ℕ };

    /// Puts the fields, in version two, after what is there.
    fn put_fields(&self, out: &mut Vec<u8>) -> Result<(), AllocError>
        requires { can_put self.now }
        ensures bytes { OnOk result (out.new.items ≡ out.old.items ++ fields Two self.now) }
        ensures valid { OnOk result (has_record Two self.now) };

    /// Reads the fields of a record of this version at the front, and answers the bytes after them too.
    fn fields_of(alloc: Global, version: Version, bytes: &[u8]) -> Result<(Self, &[u8]), Fault>
        ensures { Gives (λ x. (x.0, x.1.now)) result (fields_at version bytes.now) };

    /// The fields are read as they are written. This function is the place of that proof, and does nothing.
    fn is_format()
        ensures format { (version : Versions) → IsFormat (fields version) Any (has_record version) (fields_at version) most }
        ensures short { most < RECORD_LIMIT };
}

/// What is a row of a store, and so has a record of its own.
pub trait Row: Recorded {}

/// The version that a record with this first byte has.
fn version_of_byte(byte: u8) -> Option<Version>
    ensures { result ≡ version_of byte }
{
    match byte {
        1 => Some(Version::One),
        2 => Some(Version::Two),
        _ => None,
    }
}

#[tactic(auto, unfolding(crate::specs::Reading::version_at))]
fn version_in(bytes: &[u8]) -> Result<(Version, &[u8]), Fault>
    ensures { Gives (λ x. (x.0, x.1.now)) result (version_at bytes.now) }
{
    let (byte, rest) = u8_at(bytes)?;
    match version_of_byte(byte) {
        Some(version) => Ok((version, rest)),
        None => Err(Fault::at(bytes)),
    }
}

#[tactic(auto, unfolding(crate::specs::Reading::whole_at))]
fn whole_of<R: Recorded>(alloc: Global, bytes: &[u8]) -> Result<(Version, R), Fault>
    ensures { Gives (λ x. (x.0, x.1)) result (whole_at with_version R.fields_at bytes.now) }
{
    let (version, rest) = version_in(bytes)?;
    let (value, rest) = R::fields_of(alloc, version, rest)?;
    if !rest.is_empty() {
        return Err(Fault::at(rest));
    }
    Ok((version, value))
}

/// The version and the value of a record, or the place of its fault from the front.
fn placed_of<R: Recorded>(alloc: Global, bytes: &[u8]) -> Result<(Version, R), ReadError>
    ensures { Answers result (reading_by with_version R.fields_at bytes.now) }
{
    R::is_format();
    match whole_of(alloc, bytes) {
        Ok(read) => Ok(read),
        Err(Fault::NoMemory) => Err(ReadError::NoMemory),
        Err(Fault::Wrong { left }) => Err(ReadError::BadRecord {
            at: (bytes.len() - left) as u32,
        }),
    }
}

/// Reads a record, and answers its version too. Where bytes follow it, its end is the fault, and they aren't looked at.
pub(crate) fn read<R: Recorded>(alloc: Global, bytes: &[u8]) -> Result<(Version, R), ReadError>
    ensures found { IfOk result (λ x. R.has_record x.0 x.1 × (bytes.now ≡ recorded R.fields x.0 x.1)) }
    ensures only { (version : Versions) (x : R) → R.has_record version x → bytes.now ≡ recorded R.fields version x → Answers result (Ok (version, x)) }
    ensures exact { Answers result (reading_by with_version R.fields_at bytes.now) }
{
    R::is_format();
    placed_of(alloc, bytes)
}

/// Reads a record, whichever its version.
pub(crate) fn read_value<R: Recorded>(alloc: Global, bytes: &[u8]) -> Result<R, ReadError>
    ensures found { IfOk result (λ x. IsRecord R.fields R.has_record bytes.now x) }
    ensures only { (x : R) → IsRecord R.fields R.has_record bytes.now x → Answers result (Ok x) }
    ensures exact { Answers result (reading_by itself R.fields_at bytes.now) }
{
    let (_, value) = read(alloc, bytes)?;
    Ok(value)
}

/// The record of a value.
pub(crate) fn write<R: Recorded>(alloc: Global, value: &R) -> Result<List<u8>, NoMemory>
    requires { R.can_put value.now }
    ensures bytes { IfOk result (λ bytes. bytes ≡ recorded R.fields Two value.now) }
    ensures size { IfOk result (λ bytes. (1 ≤ length bytes) × (length bytes ≤ RECORD_LIMIT)) }
    ensures short { IfOk result (λ bytes. length bytes ≤ R.most + 1) }
    ensures valid { OnOk result (R.has_record Two value.now) }
    ensures unique { IfOk result (λ bytes. (x : R) → IsRecord R.fields R.has_record bytes x → x ≡ value.now) }
{
    R::is_format();
    let mut out = Vec::with_capacity(alloc, USUAL_SIZE)?;
    out.push(VERSION)?;
    value.put_fields(&mut out)?;
    Ok(List::from_vec(out))
}

/// The record of a row, in version two.
pub fn put_row<R: Row>(alloc: Global, row: &R) -> Result<List<u8>, NoMemory>
    requires { R.can_put row.now }
    ensures bytes { IfOk result (λ bytes. bytes ≡ recorded R.fields Two row.now) }
    ensures size { IfOk result (λ bytes. (1 ≤ length bytes) × (length bytes ≤ RECORD_LIMIT)) }
    ensures short { IfOk result (λ bytes. length bytes ≤ R.most + 1) }
    // So its record is read as this row.
    ensures valid { OnOk result (R.has_record Two row.now) }
    // No other row has this record.
    ensures unique { IfOk result (λ bytes. (other : R) → IsRecord R.fields R.has_record bytes other → other ≡ row.now) }
{
    write(alloc, row)
}

/// Reads the record of a row of this type, in version one or two, from any number of bytes. `BadRecord` comes only where
/// they are no such record, at the first wrong field, or at the record's end where bytes follow it; those aren't looked
/// at. `NoMemory` may come at any time.
pub fn get_row<R: Row>(alloc: Global, bytes: &[u8]) -> Result<R, ReadError>
    // The bytes are a record of what is read.
    ensures found { IfOk result (λ row. IsRecord R.fields R.has_record bytes.now row) }
    // A record of a row is read as that row, unless memory runs out.
    ensures only { (row : R) → IsRecord R.fields R.has_record bytes.now row → Answers result (Ok row) }
    // Which place is the fault's.
    ensures exact { Answers result (reading_by itself R.fields_at bytes.now) }
{
    read_value(alloc, bytes)
}
