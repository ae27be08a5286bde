//! The payloads of a snapshot, from tables.
ghost use Rattle.std.specs.Prelude.{◌≡◌, ◌+◌, ◌*◌, ◌^◌, ◌<◌, ◌≤◌, [], ◌∷◌, ◌++◌, List as Items, ℕ, All, OnOk, IfOk, IfErr, IfSome, IfNone, fold, length, map, true, false};
ghost use Rattle.qz_journal.specs.Commits.{LackRoom, HaveRoom, IsFullFor, room_for};
ghost use Rattle.qz_journal.specs.Layout.{IsPayload, blocks, end_of};
ghost use Rattle.qz_journal.specs.declared.layout.TheConstants.{MAX_BYTES, MAX_PAYLOADS};
ghost use Rattle.qz_model.specs.Invariant.{AreNames, TablesValid};
ghost use Rattle.qz_pieces.specs.Pieces.{with_row, AreShort, pieces};
ghost use Rattle.qz_snapshot.specs.Checkpoints.{plan_rows, state_rows, rows_written, snapshot_written, PlansHaveRecords, StatesHaveRecords};
ghost use Rattle.qz_snapshot.specs.Heads.{head_bytes, HasWidths};
ghost use Rattle.qz_snapshot.specs.Snapshots.{IsSnapshot, numbers_of};

use crate::heads::{HEAD_LENGTH, Head, Numbers, put_head};
use crate::rows::add_rows;
use qz_civil::List;
use qz_journal::{FRAME_LENGTH, JournalFull, MAX_BYTES, MAX_PAYLOADS};
use qz_pieces::{Pieces, RowKind};
use qz_tables::Tables;
use qz_types::NoMemory;
use std::alloc::Global;

// The offset of the first gate of a journal.
const FIRST_GATE: u64 = 16;

/// The payloads of a snapshot of the tables with which a store begins: no payload and no entry come before it. Where a new store
/// has no room for them, how many bytes they need and how many there are.
pub fn first_snapshot(
    alloc: Global,
    tables: &Tables,
) -> Result<Result<List<List<u8>>, JournalFull>, NoMemory>
    requires valid { ∥ TablesValid tables.now.tables ∥₁ }
    ensures payloads { IfOk result (λ r. IfOk r (λ ps. (ps ≡ snapshot_written tables.now.tables 0 0) × All IsPayload ps)) }
    ensures snapshot { IfOk result (λ r. OnOk r (IsSnapshot (snapshot_written tables.now.tables 0 0) tables.now.tables 0 0)) }
    ensures room { IfOk result (λ r. OnOk r (HaveRoom (snapshot_written tables.now.tables 0 0) (end_of []) 0)) }
    ensures full { IfOk result (λ r. IfErr r (λ full. IsFullFor (snapshot_written tables.now.tables 0 0) (end_of []) 0 full.need full.room)) }
{
    match payloads_of(alloc, tables, FIRST_GATE, 0, 0)? {
        Some(payloads) => Ok(Ok(payloads)),
        None => Ok(Err(room_lacked(&cut_rows(alloc, tables)?)?)),
    }
}

// How many bytes a head and these pieces need in a new journal, and how many it has, or none where it may not have so many payloads.
fn room_lacked(pieces: &[Vec<u8>]) -> Result<JournalFull, NoMemory>
    requires sizes { All IsPayload (map (λ p. p.items) pieces.now) }
    ensures need { IfOk result (λ full. (head : Items ℕ) → length head ≡ 53 → full.need ≡ length (blocks (head ∷ map (λ p. p.items) pieces.now))) }
    ensures room { IfOk result (λ full. full.room ≡ room_for (end_of []) 0 (1 + length pieces.now)) }
{
    // so many never are in memory
    if pieces.len() as u64 >= u32::MAX as u64 {
        return Err(NoMemory);
    }
    let need = (FRAME_LENGTH + HEAD_LENGTH) as u64 + bytes_of(pieces);
    let room = if pieces.len() as u64 >= MAX_PAYLOADS {
        0
    } else {
        MAX_BYTES - 1 - FIRST_GATE
    };
    Ok(JournalFull { need, room })
}

/// The payloads of a snapshot of the tables, which so many entries left, where they have room after the closed gate at this
/// offset, with so many payloads before it; else None.
pub(crate) fn payloads_of(
    alloc: Global,
    tables: &Tables,
    offset: u64,
    count: u64,
    entries: u64,
) -> Result<Option<List<List<u8>>>, NoMemory>
    requires counted { entries ≤ count }
    requires groups { AreNames tables.now.tables.paused_groups }
    requires job_groups { AreNames tables.now.tables.paused_job_groups }
    ensures payloads { IfOk result (λ o. IfSome o (λ ps. ps ≡ snapshot_written tables.now.tables count entries)) }
    ensures sizes { IfOk result (λ o. IfSome o (All IsPayload)) }
    ensures snapshot { IfOk result (λ o. IfSome o (λ _. IsSnapshot (snapshot_written tables.now.tables count entries) tables.now.tables count entries)) }
    ensures room { IfOk result (λ o. IfSome o (λ _. HaveRoom (snapshot_written tables.now.tables count entries) offset count)) }
    ensures lack { IfOk result (λ o. IfNone o (LackRoom (snapshot_written tables.now.tables count entries) offset count)) }
{
    let pieces = cut_rows(alloc, tables)?;
    if !have_room(offset, count, &pieces) {
        return Ok(None);
    }
    let head = head_of(tables, count, entries, pieces.len());
    Ok(Some(after_head(alloc, &head, pieces)?))
}

// A head, and these pieces.
fn after_head(alloc: Global, head: &Head, pieces: Vec<Vec<u8>>) -> Result<List<List<u8>>, NoMemory>
    ensures { IfOk result (λ ps. ps ≡ head_bytes head.now ∷ map (λ p. p.items) pieces.items) }
{
    let mut first = Vec::new(alloc);
    put_head(&mut first, head)?;
    let mut payloads = List::new(alloc);
    payloads.push(List::from_vec(first))?;
    for piece in pieces {
        payloads.push(List::from_vec(piece))?;
    }
    Ok(payloads)
}

// The head of a snapshot of the tables.
fn head_of(tables: &Tables, before: u64, entries: u64, pieces: usize) -> Head
    requires before { before < 2 ^ 32 }
    requires entries { entries < 2 ^ 32 }
    requires pieces { pieces < 2 ^ 32 }
    ensures head { result ≡ record { payloads = before; entries = entries; pieces = pieces; numbers = numbers_of tables.now.tables } }
    ensures widths { HasWidths result }
{
    Head {
        payloads: before as u32,
        entries: entries as u32,
        pieces: pieces as u32,
        numbers: Numbers {
            next_entry: tables.next_entry(),
            next_epoch: tables.next_epoch(),
            threshold: tables.threshold(),
            last_moment: tables.last_moment(),
            horizon: tables.horizon(),
        },
    }
}

// Whether a head and these pieces have room after the closed gate at this offset, with so many payloads before it.
fn have_room(offset: u64, count: u64, pieces: &[Vec<u8>]) -> bool
    requires { All IsPayload (map (λ p. p.items) pieces.now) }
    ensures room { result ≡ true → (head : Items ℕ) → length head ≡ 53 → HaveRoom (head ∷ map (λ p. p.items) pieces.now) offset count }
    ensures lack { result ≡ false → (head : Items ℕ) → length head ≡ 53 → LackRoom (head ∷ map (λ p. p.items) pieces.now) offset count }
{
    if pieces.len() as u64 >= MAX_PAYLOADS.saturating_sub(count) {
        return false;
    }
    let need = (FRAME_LENGTH + HEAD_LENGTH) as u64 + bytes_of(pieces);
    need <= (MAX_BYTES - 1).saturating_sub(offset)
}

// How many bytes these payloads take in a journal.
fn bytes_of(payloads: &[Vec<u8>]) -> u64
    requires sizes { All IsPayload (map (λ p. p.items) payloads.now) }
    requires few { length payloads.now < 2 ^ 32 }
    ensures bytes { result ≡ length (blocks (map (λ p. p.items) payloads.now)) }
    ensures most { result ≤ length payloads.now * 32773 }
{
    let mut bytes = 0;
    for place in 0..payloads.len() {
        bytes += (FRAME_LENGTH + payloads[place].len()) as u64;
    }
    bytes
}

// The pieces of the rows of the tables.
fn cut_rows(alloc: Global, tables: &Tables) -> Result<Vec<Vec<u8>>, NoMemory>
    requires groups { AreNames tables.now.tables.paused_groups }
    requires job_groups { AreNames tables.now.tables.paused_job_groups }
    ensures pieces { IfOk result (λ ps. map (λ p. p.items) ps.items ≡ pieces (rows_written tables.now.tables)) }
    ensures short { OnOk result (AreShort (rows_written tables.now.tables)) }
    ensures recorded { OnOk result (PlansHaveRecords tables.now.tables × StatesHaveRecords tables.now.tables) }
{
    let mut pieces = Pieces::new(alloc)?;
    add_plans(alloc, &mut pieces, tables)?;
    add_states(alloc, &mut pieces, tables)?;
    Ok(pieces.into_pieces()?)
}

// Puts in what is to fire and when: jobs, triggers, calendars and zones.
fn add_plans(alloc: Global, pieces: &mut Pieces, tables: &Tables) -> Result<(), NoMemory>
    ensures rows { OnOk result (pieces.new ≡ fold with_row pieces.old (plan_rows tables.now.tables)) }
    ensures short { OnOk result (AreShort (plan_rows tables.now.tables)) }
    ensures recorded { OnOk result (PlansHaveRecords tables.now.tables) }
{
    add_rows(alloc, pieces, RowKind::Job, &tables.sorted_jobs(alloc)?)?;
    add_rows(
        alloc,
        pieces,
        RowKind::Trigger,
        &tables.sorted_triggers(alloc)?,
    )?;
    add_rows(
        alloc,
        pieces,
        RowKind::Calendar,
        &tables.sorted_calendars(alloc)?,
    )?;
    add_rows(alloc, pieces, RowKind::Zone, &tables.sorted_zones(alloc)?)
}

// Puts in the rest: paused groups of triggers, members, fired rows and paused groups of jobs.
fn add_states(alloc: Global, pieces: &mut Pieces, tables: &Tables) -> Result<(), NoMemory>
    requires groups { AreNames tables.now.tables.paused_groups }
    requires job_groups { AreNames tables.now.tables.paused_job_groups }
    ensures rows { OnOk result (pieces.new ≡ fold with_row pieces.old (state_rows tables.now.tables)) }
    ensures short { OnOk result (AreShort (state_rows tables.now.tables)) }
    ensures recorded { OnOk result (StatesHaveRecords tables.now.tables) }
{
    add_rows(alloc, pieces, RowKind::Group, &tables.sorted_groups(alloc)?)?;
    add_rows(
        alloc,
        pieces,
        RowKind::Member,
        &tables.sorted_members(alloc)?,
    )?;
    add_rows(alloc, pieces, RowKind::Fired, &tables.sorted_fired(alloc)?)?;
    add_rows(
        alloc,
        pieces,
        RowKind::JobGroup,
        &tables.sorted_job_groups(alloc)?,
    )
}
