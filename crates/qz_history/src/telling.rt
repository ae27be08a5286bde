//! Telling what a disk has.
ghost use Rattle.std.specs.Prelude.{◌≡◌, ◌≢◌, ◌⊎◌, ◌+◌, ◌^◌, ◌<◌, ◌≤◌, ℕ, List as Items, [], false, IfOk, IfErr};
ghost use Rattle.std.specs.Io.KnownBytes.{Appends};
ghost use Rattle.qz_civil.specs.Causes.{Rose};
ghost use Rattle.qz_journal.specs.Layout.{end_from};
ghost use Rattle.qz_types.specs.Entries.{EntryData};
ghost use Rattle.qz_types.specs.Tables.{SchedulerTables};
ghost use Rattle.qz_model.specs.History.{History};
ghost use Rattle.qz_snapshot.specs.Opening.{is_part};
ghost use Rattle.qz_stores.specs.Opening.{IsBase, IsRead, IsUnfit, AreTaken};
ghost use Rattle.qz_stores.specs.Replaying.{IsPassed, IsTaken};
ghost use Rattle.qz_trigger_store.specs.Kinds.{trigger_kind};
ghost use Rattle.qz_history.specs.Told.{told_from};
ghost use Rattle.qz_history.specs.Telling.{Bytes, TellsOn, TellsPart, TellsWhole};

use crate::tellers::Teller;
use qz_civil::List;
use qz_io::{Sink, write_all};
use qz_plain::PlainStore;
use qz_stores::TakeError;
use std::alloc::Global;
use thiserror::Error;

/// Why a history wasn't told to its end.
#[derive(Clone, Copy, PartialEq, Eq, Debug, Error)]
pub enum TellError {
    /// No snapshot that an opening takes begins the payloads, or one of them is no part of a snapshot, and no record of a transaction
    /// that is accepted. An opening is refused for the same.
    #[error("no history")]
    Unfit,
    #[error("no memory")]
    NoMemory,
    /// The output failed.
    #[error("write fault")]
    WriteFault,
}

/// Tells what these payloads of a store of this version record, which stand from the offset `start` on, where a slot, if one is
/// in use, leads: where the history begins, if not with the first transaction that was asked for.
#[tactic(auto, using(crate::proofs::Parts::tells_part))]
pub fn tell_payloads<K: Sink>(
    alloc: Global,
    from: u64,
    version: u8,
    slot: Option<u64>,
    start: u64,
    payloads: &List<List<u8>>,
    out: &mut K,
) -> Result<Option<u64>, TellError>
    requires offsets { end_from start payloads.now < 2 ^ 64 }
    ensures all { IfOk result (λ begins. (h : History) × IsRead trigger_kind slot version payloads.now h.base_count h.base h.entries
        × TellsWhole from h begins (K.held out.old) (K.held out.new)) }
    ensures part { IfErr result (λ s. Appends (K.held out.old) (K.held out.new) []
        ⊎ ((T : SchedulerTables) × (n : ℕ) × IsBase trigger_kind slot version payloads.now T n × TellsPart from n T payloads.now (K.held out.old) (K.held out.new))) }
    // They are unfit only where they record no history.
    ensures unfit { IfErr result (λ s. s ≡ TellError.Unfit → (h : History) → IsRead trigger_kind slot version payloads.now h.base_count h.base h.entries → ⊥) }
    ensures write { IfErr result (λ s. s ≡ TellError.WriteFault → Rose (K.faults out.old) (K.faults out.new)) }
    ensures later { K.faults out.old ≤ K.faults out.new }
{
    match begin(alloc, from, version, slot, payloads) {
        Ok(teller) => {
            let begins = teller.beginning();
            match tell_each(teller, start, payloads, out) {
                Ok(done) => {
                    drop(done);
                    Ok(begins)
                }
                Err(error) => Err(error),
            }
        }
        Err(error) => Err(error),
    }
}

// The base of these payloads.
fn begin(
    alloc: Global,
    from: u64,
    version: u8,
    slot: Option<u64>,
    payloads: &List<List<u8>>,
) -> Result<Teller, TellError>
    ensures base { IfOk result (λ t. IsBase trigger_kind slot version payloads.now t.base.value.tables t.base_count) }
    ensures few { IfOk result (λ t. t.base_count < 2 ^ 32) }
    ensures from { IfOk result (λ t. t.from ≡ from) }
    ensures none { IfOk result (λ t. t.entries.items ≡ []) }
    ensures unfit { IfErr result (λ e. e ≡ TellError.Unfit → (T : SchedulerTables) (n : ℕ) → IsBase trigger_kind slot version payloads.now T n → ⊥) }
    ensures other { IfErr result (λ e. e ≢ TellError.WriteFault) }
{
    match slot {
        None => Ok(Teller::new(alloc, from, 0, PlainStore::new(alloc, version))),
        Some(_) => match qz_snapshot::read_base(alloc, payloads) {
            Ok(Some((tables, entries))) => {
                let tables = PlainStore::from_tables(tables);
                Ok(Teller::new(alloc, from, entries, tables))
            }
            Ok(None) => Err(TellError::Unfit),
            Err(_) => Err(TellError::NoMemory),
        },
    }
}

// Reads the entries of these payloads, which stand from the offset `start` on, and writes what is told of each before it reads
// the next one.
fn tell_each<K: Sink>(
    teller: Teller,
    start: u64,
    payloads: &List<List<u8>>,
    out: &mut K,
) -> Result<Teller, TellError>
    requires none { teller.entries.items ≡ [] }
    requires few { teller.base_count < 2 ^ 32 }
    requires offsets { end_from start payloads.now < 2 ^ 64 }
    ensures base { IfOk result (λ done. (done.from ≡ teller.from) × (done.base_count ≡ teller.base_count) × (done.base.value.tables ≡ teller.base.value.tables)) }
    ensures taken { IfOk result (λ done. AreTaken trigger_kind teller.base.value.tables payloads.now done.entries.items) }
    ensures written { IfOk result (λ done. Appends (K.held out.old) (K.held out.new) (told_from teller.from (teller.base_count + 1) teller.base.value.tables done.entries.items)) }
    ensures part { IfErr result (λ e. TellsPart teller.from teller.base_count teller.base.value.tables payloads.now (K.held out.old) (K.held out.new)) }
    ensures unfit { IfErr result (λ e. e ≡ TellError.Unfit → (es : Items EntryData) → AreTaken trigger_kind teller.base.value.tables payloads.now es → ⊥) }
    ensures write { IfErr result (λ e. e ≡ TellError.WriteFault → Rose (K.faults out.old) (K.faults out.new)) }
    ensures later { K.faults out.old ≤ K.faults out.new }
{
    let _ = start;
    let mut text = Vec::new(teller.alloc);
    let mut teller = teller;
    for payload in payloads.as_slice() {
        match tell_one(teller, &mut text, payload.as_slice(), out) {
            Ok(more) => teller = more,
            Err(error) => return Err(error),
        }
    }
    Ok(teller)
}

// Reads one payload, and writes what is told of it.
#[tactic(auto, using(crate::proofs::Parts::told_further, crate::proofs::Parts::on_start))]
fn tell_one<K: Sink>(
    teller: Teller,
    text: &mut Vec<u8>,
    payload: &[u8],
    out: &mut K,
) -> Result<Teller, TellError>
    requires room { teller.count + 1 < 2 ^ 64 }
    ensures base { IfOk result (λ more. (more.from ≡ teller.from) × (more.base_count ≡ teller.base_count) × (more.base.value.tables ≡ teller.base.value.tables)) }
    ensures next { IfOk result (λ more. IsPassed trigger_kind payload.now teller.entries.items more.entries.items
        ⊎ IsTaken trigger_kind teller.tables.tables payload.now teller.entries.items more.entries.items) }
    // What was written before goes on with what is told of it, or with a part of that.
    ensures written { IfOk result (λ more. (before : Bytes) → Appends before (K.held out.old) (told_from teller.from (teller.base_count + 1) teller.base.value.tables teller.entries.items)
        → Appends before (K.held out.new) (told_from teller.from (teller.base_count + 1) teller.base.value.tables more.entries.items)) }
    ensures part { IfErr result (λ e. (before : Bytes) → Appends before (K.held out.old) (told_from teller.from (teller.base_count + 1) teller.base.value.tables teller.entries.items)
        → TellsOn teller.from (teller.base_count + 1) teller.base.value.tables teller.tables.tables payload.now teller.entries.items before (K.held out.new)) }
    ensures unfit { IfErr result (λ e. e ≡ TellError.Unfit → (is_part payload.now ≡ false) × IsUnfit trigger_kind teller.tables.tables payload.now) }
    ensures write { IfErr result (λ e. e ≡ TellError.WriteFault → Rose (K.faults out.old) (K.faults out.new)) }
    ensures later { K.faults out.old ≤ K.faults out.new }
{
    match teller.take(text, payload) {
        Ok(more) => match write_all(out, text.as_slice()) {
            Ok(()) => Ok(more),
            Err(_) => {
                drop(more);
                Err(TellError::WriteFault)
            }
        },
        Err(TakeError::Unfit) => Err(TellError::Unfit),
        Err(TakeError::NoMemory) => Err(TellError::NoMemory),
    }
}
