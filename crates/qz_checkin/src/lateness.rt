//! Which nodes are taken for failed.
ghost use Rattle.std.specs.Prelude.{◌≡◌, ◌≤◌, length, IfOk, IfSome, option_copied};
ghost use Rattle.std.specs.List.{AllByRecursion, find as first_with, position_from};
ghost use Rattle.qz_civil.specs.declared.limits.TheConstants.{LAST as THE_LAST};
ghost use Rattle.qz_types.specs.Tables.{IsMoment};
ghost use Rattle.qz_types.specs.declared.limits.TheConstants.{STATE_LIMIT as LIMIT};
ghost use Rattle.qz_checkin.specs.Rows.{state_of, state_moment};
ghost use Rattle.qz_checkin.specs.Valid.{HasMoment};
ghost use Rattle.qz_checkin.specs.InMemory.{tables_in};
ghost use Rattle.qz_checkin.specs.Lateness.{last_of, fresh_until, is_late, fresh_refusal, late_place, evidence_of, failed_by};

use crate::rows::States;
use qz_types::{Evidence, NoMemory, Refusal, StateRow, Text};

/// How long a node may be silent past the time of its next check-in, in ms.
const GRACE: i64 = 7500;

// The last moment at which a row isn't late, seen at this moment by a node with this last check-in.
#[tactic(auto, unfolding(crate::specs::Lateness::fresh_until))]
fn fresh_until(row: &StateRow, own_last: i64, now: i64) -> i64
    requires row { HasMoment row.now }
    requires own { IsMoment THE_LAST own_last }
    requires now { IsMoment THE_LAST now }
    ensures { result ≡ fresh_until row.now own_last now }
{
    row.last + row.interval.max(now - own_last) + GRACE
}

#[tactic(auto, unfolding(crate::specs::Lateness::is_late))]
fn is_late(row: &StateRow, own_last: i64, now: i64) -> bool
    requires row { HasMoment row.now }
    requires own { IsMoment THE_LAST own_last }
    requires now { IsMoment THE_LAST now }
    ensures { result ≡ is_late row.now own_last now }
{
    fresh_until(row, own_last, now) < now
}

impl States {
    // When this node last checked in; 0 where it has no row.
    #[tactic(auto, unfolding(crate::specs::Lateness::last_of))]
    fn last_of(&self, own: &Text) -> i64
        ensures value { result ≡ last_of (state_of own.now self.now.rows.items) }
        ensures moment { IsMoment THE_LAST result }
    {
        match self.row(own) {
            None => 0,
            Some(row) => row.last,
        }
    }

    /// Why a node isn't taken for failed by another one at the recorded moment of a reading of the clock, or None where
    /// it is. A node that has no row counts as one that last checked in at 0.
    #[tactic(auto, unfolding(crate::specs::Lateness::row_refusal))]
    pub(crate) fn fresh_refusal(&self, at: i64, own: &Text, failed: &Text) -> Option<Refusal>
        ensures { result ≡ fresh_refusal (tables_in self.now) (state_moment (tables_in self.now) at) own.now failed.now }
    {
        let now = self.moment(at);
        let own_last = self.last_of(own);
        let Some(row) = self.row(failed) else {
            return Some(Refusal::UnknownNode);
        };
        if is_late(row, own_last, now) {
            return None;
        }
        let until = fresh_until(row, own_last, now);
        Some(Refusal::StillFresh { until })
    }

    /// The place of the first row that is late for a node at the recorded moment of a reading of the clock.
    #[tactic(auto, using(crate::proofs::Looking::moments_of, crate::proofs::Looking::few_of))]
    pub(crate) fn late_place(&self, at: i64, own: &Text) -> Option<u32>
        ensures { result ≡ late_place (tables_in self.now) (state_moment (tables_in self.now) at) own.now }
    {
        place_of_late(&self.rows, self.last_of(own), self.moment(at))
    }

    /// What is told of that row.
    #[tactic(auto, unfolding(crate::specs::Lateness::failed_by), using(crate::proofs::Looking::moments_of))]
    pub(crate) fn failed(&self, at: i64, own: &Text) -> Result<Option<Evidence>, NoMemory>
        ensures { IfOk result (λ found. found ≡ failed_by (tables_in self.now) (state_moment (tables_in self.now) at) own.now) }
    {
        let now = self.moment(at);
        let own_last = self.last_of(own);
        match late_row(&self.rows, own_last, now) {
            None => Ok(None),
            Some(row) => Ok(Some(evidence_of(row, own_last, now)?)),
        }
    }
}

fn evidence_of(row: &StateRow, own_last: i64, now: i64) -> Result<Evidence, NoMemory>
    requires row { HasMoment row.now }
    requires own { IsMoment THE_LAST own_last }
    requires now { IsMoment THE_LAST now }
    ensures { IfOk result (λ evidence. evidence ≡ evidence_of row.now own_last now) }
{
    Ok(Evidence {
        node: row.node.clone()?,
        last: row.last,
        until: fresh_until(row, own_last, now),
    })
}

// The place of the first row that is late.
fn place_of_late(rows: &[StateRow], own_last: i64, now: i64) -> Option<u32>
    requires rows { ∥ AllByRecursion HasMoment rows.now ∥₁ }
    requires few { length rows.now ≤ LIMIT }
    requires own { IsMoment THE_LAST own_last }
    requires now { IsMoment THE_LAST now }
    ensures { result ≡ position_from (λ row. is_late row own_last now) 0 rows.now }
{
    let mut place = 0;
    for row in rows {
        if is_late(row, own_last, now) {
            return Some(place);
        }
        place += 1;
    }
    None
}

// The first row that is late.
fn late_row(rows: &[StateRow], own_last: i64, now: i64) -> Option<&StateRow>
    requires rows { ∥ AllByRecursion HasMoment rows.now ∥₁ }
    requires own { IsMoment THE_LAST own_last }
    requires now { IsMoment THE_LAST now }
    ensures value { option_copied result ≡ first_with (λ row. is_late row own_last now) rows.now }
    ensures moment { IfSome result (λ row. HasMoment row.now) }
{
    for row in rows {
        if is_late(row, own_last, now) {
            return Some(row);
        }
    }
    None
}
