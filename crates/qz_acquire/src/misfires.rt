//! A node moves the triggers that are misfired. Times are in ms since 1970-01-01T00:00:00Z.
ghost use Rattle.std.specs.Prelude.{◌≡◌, ◌||◌, option_copied, IfOk, IfErr, map, fold, ℤ, ◌≤ℤ◌, MatchOption};
ghost use Rattle.std.specs.List.{AllByRecursion};
ghost use Rattle.qz_civil.specs.declared.limits.TheConstants.{LAST};
ghost use Rattle.qz_types.specs.Tables.{IsMoment};
ghost use Rattle.qz_types.specs.Outcomes.{refused, IsAccepted, IsErrorOf};
ghost use Rattle.qz_model.specs.Invariant.{TablesValid};
ghost use Rattle.qz_model.specs.Misfires.{misfired_triggers, moved_row, misfires};
ghost use Rattle.qz_acquire.specs.Moves.{with_move, AreMovable, move_for, IsMovable, IsMissed};
ghost use Rattle.qz_acquire.specs.Prepared.{committed, CanCommit};
ghost use Rattle.qz_acquire.specs.Walk.{is_from, is_missed, unless_past};
ghost use Rattle.qz_tables.specs.Due.{due_next};

use crate::changes::{Change, Move};
use crate::due::{earliest, is_from, is_missed};
use qz_apply::{move_of, node_refusal};
use qz_tables::{Tables, Test};
use qz_types::{Key, List, MISFIRE_LIMIT, MemberRow, MovedRow, Refusal, StepRefused, TriggerRow};
use std::alloc::{AllocError, Global};

/// Why a Misfires of the member is refused, if it is.
#[tactic(auto, using(crate::proofs::Refused::of_misfires))]
pub fn misfires_refused(tables: &Tables, me: &MemberRow) -> Option<Refusal>
    ensures { (m : ℤ) → MatchOption result (IsAccepted (misfires tables.now.tables m me.now)) (λ x. misfires tables.now.tables m me.now ≡ refused x) }
{
    node_refusal(tables, me)
}

/// Decides a Misfires of the member, which moves the first misfired triggers, up to `MISFIRE_LIMIT`. It copies their keys.
pub fn prepare_misfires(tables: &Tables, moment: i64, me: &MemberRow) -> Result<Change, StepRefused>
    requires valid { ∥ TablesValid tables.now.tables ∥₁ }
    requires moment { IsMoment tables.now.tables.horizon moment }
    ensures ok { IfOk result (λ change. misfires tables.now.tables moment me.now ≡ committed tables.now.tables moment change) }
    ensures possible { IfOk result (CanCommit tables.now) }
    ensures cause { IfErr result (IsErrorOf (misfires tables.now.tables moment me.now)) }
{
    if let Some(refusal) = node_refusal(tables, me) {
        return Err(StepRefused::Refused(refusal));
    }
    let moves = moves(tables, moment)?;
    let rows = rows_of(tables.allocator(), &moves)?;
    Ok(Change::Misfires {
        moves: List::from_vec(moves),
        rows,
    })
}

// The moves of the first misfired triggers.
fn moves(tables: &Tables, moment: i64) -> Result<Vec<Move>, AllocError>
    requires valid { ∥ TablesValid tables.now.tables ∥₁ }
    requires moment { IsMoment tables.now.tables.horizon moment }
    ensures moves { IfOk result (λ moves. moves.items ≡ map (move_for tables.now.tables moment) (misfired_triggers tables.now.tables moment)) }
    ensures movable { IfOk result (λ moves. AreMovable tables.now.tables.triggers moves.items) }
{
    let triggers = misfired_triggers(tables, moment)?;
    moves_of(tables, moment, &triggers)
}

// The first triggers in due order that wait and are misfired. From the first time that isn't misfired on, no time is.
fn misfired_triggers(tables: &Tables, moment: i64) -> Result<Vec<&TriggerRow>, AllocError>
    requires valid { ∥ TablesValid tables.now.tables ∥₁ }
    requires moment { IsMoment tables.now.tables.horizon moment }
    ensures { IfOk result (λ rows. map (λ r. r.now) rows.items ≡ misfired_triggers tables.now.tables moment) }
{
    let earliest = earliest(tables, moment);
    let mut found = Vec::new(tables.allocator());
    let mut last = None;
    while found.len() < MISFIRE_LIMIT as usize {
        let Some(trigger) = next_missed(tables, earliest, last) else {
            return Ok(found);
        };
        found.push(trigger)?;
        last = Some(&trigger.spec.key);
    }
    Ok(found)
}

// The next trigger that waits and is misfired, after the one of this key, if one is given.
fn next_missed<'a>(tables: &'a Tables, earliest: i64, last: Option<&Key>) -> Option<&'a TriggerRow>
    ensures { option_copied result ≡ unless_past (λ t. is_from earliest t.next) (due_next (option_copied last.entry) (λ t. is_from earliest t.next || is_missed earliest t) tables.now.tables.triggers) }
{
    match tables.due_next(last, &Stop { earliest }) {
        Some(trigger) if !is_from(earliest, trigger.next) => Some(trigger),
        _ => None,
    }
}

/// The walk stops at a trigger that is misfired, and at one whose next time isn't before the earliest that isn't misfired.
#[derive(Drop)]
struct Stop {
    earliest: i64,
}

impl Test<TriggerRow> for Stop {
    ghost test = { λ s t. is_from s.earliest t.next || is_missed s.earliest t };

    fn passes(&self, trigger: &TriggerRow) -> bool {
        is_from(self.earliest, trigger.next) || is_missed(self.earliest, trigger)
    }
}

// What a misfire makes of each of these.
fn moves_of(tables: &Tables, moment: i64, triggers: &[&TriggerRow]) -> Result<Vec<Move>, AllocError>
    requires moment { moment ≤ℤ LAST }
    requires missed { AllByRecursion (IsMissed moment) (map (λ r. r.now) triggers.now) }
    ensures moves { IfOk result (λ moves. moves.items ≡ map (move_for tables.now.tables moment) (map (λ r. r.now) triggers.now)) }
    ensures fit { IfOk result (λ _. AllByRecursion (IsMovable tables.now.tables moment) (map (λ r. r.now) triggers.now)) }
{
    let mut moves = Vec::new(tables.allocator());
    for trigger in triggers {
        let moved = move_of(tables, trigger, moment);
        let key = trigger.spec.key.copy()?;
        moves.push(Move { key, moved })?;
    }
    Ok(moves)
}

// What the reply lists.
fn rows_of(alloc: Global, moves: &[Move]) -> Result<List<MovedRow>, AllocError>
    ensures { IfOk result (λ rows. rows ≡ map (λ move. record { trigger = move.key; next = move.moved.next }) moves.now) }
{
    let mut rows = List::new(alloc);
    for one in moves {
        let trigger = one.key.copy()?;
        rows.push(MovedRow {
            trigger,
            next: one.moved.next,
        })?;
    }
    Ok(rows)
}

/// Does these moves, one after the other. It takes no memory.
pub fn move_each(tables: &mut Tables, moves: Vec<Move>)
    requires { AreMovable tables.old.tables.triggers moves.items }
    ensures { tables.new.tables ≡ record tables.old.tables { triggers = fold with_move tables.old.tables.triggers moves.items } }
{
    for one in moves {
        tables.move_trigger(&one.key, &one.moved);
    }
}
