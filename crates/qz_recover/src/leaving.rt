//! A member leaves.
ghost use Rattle.std.specs.Prelude.{◌≡◌, ◌&&◌, not, ℤ, MatchOption, length};
ghost use Rattle.qz_types.specs.Outcomes.{accepted, refused, IsAccepted};
ghost use Rattle.qz_types.specs.States.{is_acquired};
ghost use Rattle.qz_model.specs.Invariant.{TablesValid};
ghost use Rattle.qz_model.specs.Recovery.{leave, leave_refusal, lost_of};
ghost use Rattle.qz_model.specs.Tests.{is_of};

use crate::ending::end_rows;
use qz_apply::{is_acquired, is_of, node_refusal};
use qz_tables::Tables;
use qz_types::{FiredRow, MemberRow, Refusal, Reply};

/// Why a Leave of the member is refused, if it is.
#[tactic(auto, using(crate::proofs::Leaves::of_leave, crate::proofs::Leaves::fenced))]
pub fn leave_refused(tables: &Tables, me: &MemberRow) -> Option<Refusal>
    ensures { (m : ℤ) → MatchOption result (IsAccepted (leave tables.now.tables m me.now)) (λ x. leave tables.now.tables m me.now ≡ refused x) }
{
    if let Some(refusal) = node_refusal(tables, me) {
        return Some(refusal);
    }
    in_use(tables, me)
}

/// The member goes, and what it acquired is given back, where nothing refuses it. The moment is in ms since
/// 1970-01-01T00:00:00Z.
#[tactic(auto, using(crate::proofs::Leaves::leave_accepted))]
pub fn leave(tables: &mut Tables, moment: i64, me: &MemberRow) -> Reply
    requires valid { ∥ TablesValid tables.old.tables ∥₁ }
    requires accepted { IsAccepted (leave tables.old.tables moment me.now) }
    ensures { leave tables.old.tables moment me.now ≡ accepted tables.new.tables result }
{
    end_rows(tables, me);
    let member = tables.remove_member(&me.node);
    drop(member);
    tables.set_last_moment(moment);
    Reply::Done
}

// Executions of its own that go on keep a member from leaving.
#[tactic(auto, unfolding(qz_model::specs::Recovery::leave_refusal))]
fn in_use(tables: &Tables, me: &MemberRow) -> Option<Refusal>
    ensures { result ≡ leave_refusal tables.now.tables me.now }
{
    let executions = executions_of(tables, me);
    if executions == 0 {
        None
    } else {
        Some(Refusal::InUse {
            by: executions as u64,
        })
    }
}

// How many executions the member has. It looks at each fired row.
fn executions_of(tables: &Tables, me: &MemberRow) -> usize
    ensures { result ≡ length (lost_of me.now tables.now.tables.fired) }
{
    let mut count = 0;
    for place in 0..tables.len_fired() {
        let Some(row) = tables.nth_fired(place) else {
            unreachable!()
        };
        if is_execution_of(me, row) {
            count += 1;
        }
    }
    count
}

/// Whether the row is an execution of the member.
pub fn is_execution_of(me: &MemberRow, row: &FiredRow) -> bool
    ensures { result ≡ (not (is_acquired row.now.state) && is_of me.now row.now) }
{
    !is_acquired(row.state) && is_of(me, row)
}
