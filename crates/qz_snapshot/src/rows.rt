//! Rows of one kind, into pieces and out of them.
ghost use Rattle.std.specs.Prelude.{◌≡◌, ◌+◌, ◌≤◌, ◌++◌, List, All, OnOk, IfOk, IfSome, IfNone, fold, map};
ghost use Rattle.std.specs.List.{AllByRecursion, AllZip};
ghost use Rattle.qz_codec.specs.Records.{recorded, IsRecord};
ghost use Rattle.qz_pieces.specs.Pieces.{RowBytes, IsShort, AreShort, with_row};
ghost use Rattle.qz_pieces.specs.declared.cutting.TheConstants.{PIECE_LIMIT};
ghost use Rattle.qz_snapshot.specs.Rows.{of_kind, written, BeginsOther, BeginWith};
ghost use Rattle.qz_values.specs.declared.versions.Version.TheVariants.{Two};

use qz_codec::{ReadError, Row, get_row, put_row};
use qz_pieces::{Pieces, RecordOfRow, RowKind};
use qz_types::NoMemory;
use std::alloc::Global;

/// Puts the record of a row into pieces, in version two and under this kind. After want of memory the rows so far are lost.
pub fn add_row<R: Row>(
    alloc: Global,
    pieces: &mut Pieces,
    kind: RowKind,
    row: &R,
) -> Result<(), NoMemory>
    requires valid { R.can_put row.now }
    requires short { R.most + 5 ≤ PIECE_LIMIT }
    ensures row { OnOk result (pieces.new ≡ with_row pieces.old (record { kind = kind; bytes = recorded R.fields Two row.now })) }
    ensures recorded { OnOk result (R.has_record Two row.now) }
    ensures short { OnOk result (IsShort (record { kind = kind; bytes = recorded R.fields Two row.now })) }
{
    let record = put_row(alloc, row)?;
    pieces.add(alloc, kind, record.as_slice())?;
    Ok(())
}

/// Puts the records of rows into pieces, in their order, in version two and under this kind. After want of memory the rows
/// so far are lost.
pub(crate) fn add_rows<R: Row>(
    alloc: Global,
    pieces: &mut Pieces,
    kind: RowKind,
    rows: &[&R],
) -> Result<(), NoMemory>
    requires valid { All R.can_put (map (λ r. r.now) rows.now) }
    requires short { R.most + 5 ≤ PIECE_LIMIT }
    ensures rows { OnOk result (pieces.new ≡ fold with_row pieces.old (of_kind kind (written R.fields (map (λ r. r.now) rows.now)))) }
    ensures recorded { OnOk result (AllByRecursion (R.has_record Two) (map (λ r. r.now) rows.now)) }
    ensures short { OnOk result (AreShort (of_kind kind (written R.fields (map (λ r. r.now) rows.now)))) }
{
    for place in 0..rows.len() {
        add_row(alloc, pieces, kind, rows[place])?;
    }
    Ok(())
}

/// The rows of this kind that stand first, and those after them.
pub(crate) fn split_kind(kind: RowKind, rows: &[RecordOfRow]) -> (&[RecordOfRow], &[RecordOfRow])
    ensures parts { rows.now ≡ result.0.now ++ result.1.now }
    ensures first { AllByRecursion (λ r. r.kind ≡ kind) result.0.now }
    ensures rest { BeginsOther kind result.1.now }
{
    for place in 0..rows.len() {
        let row = &rows[place];
        if row.kind != kind {
            return rows.split_at(place);
        }
    }
    rows.split_at(rows.len())
}

/// The rows whose records these are, in version one or two, or None where one is no record of a row of this type.
pub(crate) fn get_rows<R: Row>(
    alloc: Global,
    rows: &[RecordOfRow],
) -> Result<Option<Vec<R>>, NoMemory>
    ensures found { IfOk result (λ o. IfSome o (λ found. AllZip (IsRecord R.fields R.has_record) (map (λ r. r.bytes) rows.now) found.items)) }
    ensures none { IfOk result (λ o. IfNone o ((found : List R) → AllZip (IsRecord R.fields R.has_record) (map (λ r. r.bytes) rows.now) found → ⊥)) }
{
    let mut found = Vec::new(alloc);
    for place in 0..rows.len() {
        let row = &rows[place];
        match get_row(alloc, &row.bytes) {
            Ok(row) => found.push(row)?,
            Err(ReadError::BadRecord { at: _ }) => return Ok(None),
            Err(ReadError::NoMemory) => return Err(NoMemory),
        }
    }
    Ok(Some(found))
}

/// The rows of this kind that stand first, and the records after them, or None where one of them is no record of a row of this
/// type.
#[tactic(auto, using(crate::proofs::RowLists::begin_with, crate::proofs::RowLists::begin_not))]
pub(crate) fn take_kind<'a, R: Row>(
    alloc: Global,
    kind: RowKind,
    rows: &'a [RecordOfRow],
) -> Result<Option<(Vec<R>, &'a [RecordOfRow])>, NoMemory>
    ensures found { IfOk result (λ o. IfSome o (λ x. BeginWith R.fields R.has_record kind rows.now x.0.items x.1.now)) }
    ensures none { IfOk result (λ o. IfNone o ((found : List R) (rest : List RowBytes) → BeginWith R.fields R.has_record kind rows.now found rest → ⊥)) }
{
    let (first, rest) = split_kind(kind, rows);
    match get_rows(alloc, first)? {
        Some(found) => Ok(Some((found, rest))),
        None => Ok(None),
    }
}
