//! The epochs that nodes hold.
ghost use Rattle.std.specs.Prelude.{◌≡◌, ◌<◌, IsTrue, IfOk, option_copied, vec_len, vec_capacity};
ghost use Rattle.std.specs.Option.{option_map};
ghost use Rattle.qz_types.specs.Words.{member_of, put_member, without_member};

use qz_types::{MemberRow, NoMemory, Text, find, insert};
use std::alloc::Global;
use std::cmp::Ordering;

/// The epoch that a node holds.
#[tactic(auto, unfolding(qz_types::specs::Words::member_of))]
pub(crate) fn epoch_of(held: &[MemberRow], node: &Text) -> Option<u64>
    ensures { option_map (λ epoch. record { node = node.now; epoch = epoch }) result ≡ member_of node.now held.now }
{
    match find(held, node) {
        Some(row) => Some(row.epoch),
        None => None,
    }
}

/// The rows of the other nodes.
#[tactic(auto, unfolding(qz_types::specs::Words::without_member, qz_types::specs::Words::same_text))]
pub(crate) fn others(
    alloc: Global,
    held: &[MemberRow],
    node: &Text,
) -> Result<Vec<MemberRow>, NoMemory>
    ensures { IfOk result (λ rows. rows.items ≡ without_member node.now held.now) }
{
    let mut rows = Vec::new(alloc);
    for row in held {
        if node.cmp(&row.node) != Ordering::Equal {
            rows.push(row.copy()?)?;
        }
    }
    Ok(rows)
}

/// The rows of the other nodes with room for one more, and the node's name once more.
pub(crate) fn room_for_one(
    alloc: Global,
    held: &[MemberRow],
    node: &Text,
) -> Result<(Vec<MemberRow>, Text), NoMemory>
    ensures rows { IfOk result (λ r. r.0.items ≡ without_member node.now held.now) }
    ensures room { IfOk result (λ r. vec_len r.0 < vec_capacity r.0) }
    ensures name { IfOk result (λ r. r.1 ≡ node.now) }
{
    let mut rows = others(alloc, held, node)?;
    rows.reserve(1)?;
    let name = node.clone()?;
    Ok((rows, name))
}

/// Puts in a row for which there is room.
#[tactic(auto, unfolding(qz_types::specs::Words::put_member))]
pub(crate) fn put_reserved(rows: &mut Vec<MemberRow>, row: MemberRow)
    requires { vec_len rows.old < vec_capacity rows.old }
    ensures { rows.new.items ≡ put_member row rows.old.items }
{
    // There is room, so it doesn't fail.
    let _ = insert(rows, row);
}

/// Removes a node's row. It takes no memory.
#[tactic(auto, unfolding(qz_types::specs::Words::without_member, qz_types::specs::Words::same_text))]
pub(crate) fn remove(rows: &mut Vec<MemberRow>, node: &Text)
    ensures { rows.new.items ≡ without_member node.now rows.old.items }
{
    rows.retain(|row| node.cmp(&row.node) != Ordering::Equal);
}
