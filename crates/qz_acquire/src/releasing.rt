//! A node gives back a trigger that it acquired.
ghost use Rattle.std.specs.Prelude.{◌≡◌, ℤ, Err, MatchOption, IfOk, IfErr, option_copied};
ghost use Rattle.qz_types.specs.Outcomes.{refused, IsAccepted, IsErrorOf};
ghost use Rattle.qz_types.specs.Words.{fired_of, without_fired};
ghost use Rattle.qz_model.specs.Acquiring.{release};
ghost use Rattle.qz_acquire.specs.Prepared.{given_back, committed, CanCommit};

use crate::changes::Change;
use crate::firing::acquired_refusal;
use qz_apply::node_refusal;
use qz_tables::Tables;
use qz_types::{MemberRow, Refusal, StepRefused, TriggerState};

/// Why a Release of the member is refused, if it is.
#[tactic(auto, using(crate::proofs::Refused::of_release))]
pub fn release_refused(tables: &Tables, me: &MemberRow, entry: u64) -> Option<Refusal>
    ensures { (m : ℤ) → MatchOption result (IsAccepted (release tables.now.tables m me.now entry)) (λ x. release tables.now.tables m me.now entry ≡ refused x) }
{
    if let Some(refusal) = node_refusal(tables, me) {
        return Some(refusal);
    }
    match tables.get_fired(entry) {
        None => Some(Refusal::UnknownEntry),
        Some(row) => acquired_refusal(me, row),
    }
}

/// Decides a Release of the member. It copies nothing, so memory is never wanted.
#[tactic(auto, using(crate::proofs::Releases::release_as))]
pub fn prepare_release(tables: &Tables, me: &MemberRow, entry: u64) -> Result<Change, StepRefused>
    ensures ok { (m : ℤ) → IfOk result (λ change. release tables.now.tables m me.now entry ≡ committed tables.now.tables m change) }
    ensures possible { IfOk result (CanCommit tables.now) }
    ensures cause { (m : ℤ) → IfErr result (IsErrorOf (release tables.now.tables m me.now entry)) }
    ensures memory { result ≡ Err StepRefused.NoMemory → ⊥ }
{
    match release_refused(tables, me, entry) {
        Some(refusal) => Err(StepRefused::Refused(refusal)),
        None => Ok(Change::Release { entry }),
    }
}

/// The row of this entry number goes, if there is one, and its trigger waits again.
pub fn give_back(tables: &mut Tables, entry: u64)
    ensures { tables.new.tables ≡ record tables.old.tables {
      triggers = given_back (fired_of entry tables.old.tables.fired) tables.old.tables.triggers;
      fired = without_fired entry tables.old.tables.fired;
    } }
{
    if let Some(row) = tables.remove_fired(entry) {
        tables.set_trigger_state(&row.trigger, TriggerState::Waiting);
    }
}
