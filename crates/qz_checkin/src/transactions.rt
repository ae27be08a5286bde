//! What a transaction makes of the rows.
ghost use Rattle.std.specs.Prelude.{◌≡◌, ◌<◌, IsSome, IfSome, IfOk, option_copied, vec_len, vec_capacity};
ghost use Rattle.qz_civil.specs.declared.limits.TheConstants.{LAST as THE_LAST};
ghost use Rattle.qz_types.specs.Tables.{IsMoment};
ghost use Rattle.qz_checkin.specs.Rows.{state_of, without_state, check_in_refusal, forget_refusal, state_moment, IsAccepted, accepted, state_transaction};
ghost use Rattle.qz_checkin.specs.Valid.{HasMoment, node_of, row_by, edited, IsOfNode, IsRefusalOf};
ghost use Rattle.qz_checkin.specs.InMemory.{tables_in, HasRoomFor};

use crate::rows::States;
use qz_types::{
    LAST, NoMemory, Refusal, STATE_LIMIT, StateCommand, StateEntry, StateRow, Text, find, insert,
};
use std::cmp::Ordering;

#[tactic(auto, using(crate::proofs::RowEdits::check_in_refused, crate::proofs::RowEdits::forget_refused))]
impl States {
    /// The moment at which a transaction with this reading of the clock is recorded. Both are in ms since
    /// 1970-01-01T00:00:00Z.
    #[tactic(auto, unfolding(crate::specs::Rows::state_moment))]
    pub(crate) fn moment(&self, at: i64) -> i64
        ensures value { result ≡ state_moment (tables_in self.now) at }
        ensures moment { IsMoment THE_LAST result }
    {
        at.max(0).min(LAST).max(self.last_moment)
    }

    /// The row of a node.
    #[tactic(auto, unfolding(crate::specs::Rows::state_of))]
    pub(crate) fn row(&self, node: &Text) -> Option<&StateRow>
        ensures value { option_copied result ≡ state_of node.now self.now.rows.items }
        ensures moment { IfSome result (λ row. HasMoment row.now) }
    {
        find(&self.rows, node)
    }

    /// Why an entry is refused, or None where it is accepted.
    pub(crate) fn decide(&self, entry: &StateEntry) -> Option<Refusal>
        ensures { IsRefusalOf (tables_in self.now) entry.now result }
    {
        match &entry.command {
            StateCommand::CheckIn { node, interval: _ } => self.check_in_refusal(node),
            StateCommand::Forget { node, last } => self.forget_refusal(node, *last),
        }
    }

    /// Why a check-in is refused: the node has no row, and there are as many as there may be.
    #[tactic(auto, unfolding(crate::specs::Rows::check_in_refusal))]
    pub(crate) fn check_in_refusal(&self, node: &Text) -> Option<Refusal>
        ensures { result ≡ check_in_refusal (tables_in self.now) (state_of node.now self.now.rows.items) }
    {
        match self.row(node) {
            None if self.rows.len() as u64 >= STATE_LIMIT => Some(Refusal::RowsFull),
            _ => None,
        }
    }

    /// Why a row isn't removed: there is none, or its node has checked in since then.
    #[tactic(auto, unfolding(crate::specs::Rows::forget_refusal))]
    pub(crate) fn forget_refusal(&self, node: &Text, last: i64) -> Option<Refusal>
        ensures { result ≡ forget_refusal (state_of node.now self.now.rows.items) last }
    {
        match self.row(node) {
            None => Some(Refusal::UnknownNode),
            Some(row) if row.last == last => None,
            Some(row) => Some(Refusal::Renewed { last: row.last }),
        }
    }

    /// The row that an entry puts in, and room for it: all memory that the entry needs.
    pub(crate) fn make_row(&mut self, entry: &StateEntry) -> Result<Option<StateRow>, NoMemory>
        ensures row { IfOk result (λ row. row ≡ row_by (state_moment (tables_in self.old) entry.now.at) entry.now.command) }
        ensures room { IfOk result (λ row. HasRoomFor row self.new) }
        ensures same { tables_in self.new ≡ tables_in self.old }
    {
        match &entry.command {
            StateCommand::CheckIn { node, interval } => {
                self.rows.reserve(1)?;
                Ok(Some(StateRow {
                    node: node.clone()?,
                    last: self.moment(entry.at),
                    interval: *interval,
                }))
            }
            StateCommand::Forget { .. } => Ok(None),
        }
    }

    /// Does an accepted entry, for which all memory was taken.
    pub(crate) fn apply_reserved(&mut self, entry: &StateEntry, row: Option<StateRow>)
        requires accepted { IsAccepted (state_transaction (tables_in self.old) entry.now) }
        requires row { row ≡ row_by (state_moment (tables_in self.old) entry.now.at) entry.now.command }
        requires room { HasRoomFor row self.old }
        ensures { state_transaction (tables_in self.old) entry.now ≡ accepted (tables_in self.new) }
    {
        let moment = self.moment(entry.at);
        edit(&mut self.rows, named(&entry.command), row);
        self.last_moment = moment;
    }
}

// The node that a command names.
fn named(command: &StateCommand) -> &Text
    ensures { result.now ≡ node_of command.now }
{
    match command {
        StateCommand::CheckIn { node, interval: _ } => node,
        StateCommand::Forget { node, last: _ } => node,
    }
}

// Removes a node's row, and puts in the other one, if there is one.
#[tactic(auto, unfolding(crate::specs::Rows::with_state))]
fn edit(rows: &mut Vec<StateRow>, node: &Text, row: Option<StateRow>)
    requires node { IsOfNode node.now row }
    requires room { IsSome row → vec_len rows.old < vec_capacity rows.old }
    ensures { rows.new.items ≡ edited node.now row rows.old.items }
{
    remove(rows, node);
    if let Some(row) = row {
        // There is room, so it doesn't fail.
        let _ = insert(rows, row);
    }
}

// Removes a node's row.
#[tactic(auto, unfolding(crate::specs::Rows::without_state, qz_types::specs::Words::same_text))]
fn remove(rows: &mut Vec<StateRow>, node: &Text)
    ensures rows { rows.new.items ≡ without_state node.now rows.old.items }
    ensures room { vec_len rows.old < vec_capacity rows.old → vec_len rows.new < vec_capacity rows.new }
{
    rows.retain(|row| node.cmp(&row.node) != Ordering::Equal);
}
