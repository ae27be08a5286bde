//! The fence for nodes that aren't members any more, and the rows of a member.
ghost use Rattle.std.specs.Prelude.{◌≡◌, option_copied};
ghost use Rattle.qz_model.specs.Acquiring.{owner_refusal};
ghost use Rattle.qz_model.specs.Tests.{is_of};
ghost use Rattle.qz_model.specs.Membership.{live_epoch, is_live, node_refusal};

use crate::same_text;
use qz_tables::Tables;
use qz_types::{FiredRow, MemberRow, Refusal, Text};

/// Why a node is fenced, if it is: it has to be a member under its own epoch.
#[tactic(auto, unfolding(qz_model::specs::Membership::node_refusal))]
pub fn node_refusal(tables: &Tables, me: &MemberRow) -> Option<Refusal>
    ensures { result ≡ node_refusal tables.now.tables me.now }
{
    let live = live_epoch(tables, &me.node);
    if live == Some(me.epoch) {
        None
    } else {
        Some(Refusal::Fenced { live })
    }
}

// The epoch of the member of this name, if there is one.
#[tactic(auto, unfolding(qz_model::specs::Membership::live_epoch))]
fn live_epoch(tables: &Tables, node: &Text) -> Option<u64>
    ensures { result ≡ live_epoch tables.now.tables node.now }
{
    tables.get_member(node).map(|member| member.epoch)
}

/// Whether the row is this member's, under its epoch.
#[tactic(auto, unfolding(qz_model::specs::Tests::is_of))]
pub fn is_of(me: &MemberRow, row: &FiredRow) -> bool
    ensures { result ≡ is_of me.now row.now }
{
    same_text(me.node.as_str(), row.node.as_str()) && me.epoch == row.epoch
}

/// Why the row is refused to this member, if it is: it has to be the member's own.
#[tactic(auto, unfolding(qz_model::specs::Acquiring::owner_refusal))]
pub fn owner_refusal(me: &MemberRow, row: &FiredRow) -> Option<Refusal>
    ensures { result ≡ owner_refusal me.now row.now }
{
    if is_of(me, row) {
        None
    } else {
        Some(Refusal::NotYours { owner: row.owner() })
    }
}
