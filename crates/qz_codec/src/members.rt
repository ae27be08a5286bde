//! Nodes and members, both ways.
ghost use Rattle.std.specs.Prelude.{◌≡◌, ℕ, ℤ, IsTrue, IfOk, ◌++◌, OnOk};
ghost use Rattle.qz_types.specs.Rows.{is_node};
ghost use Rattle.qz_values.specs.Reading.{Gives};
ghost use Rattle.qz_values.specs.Fields.{IsText, text};
ghost use Rattle.qz_codec.specs.Reading.{node_at, member_at};
ghost use Rattle.qz_codec.specs.Values.{IsMember};
ghost use Rattle.qz_codec.specs.Layout.{member};

use crate::records::{Recorded, Row};
use qz_types::{MemberRow, NODE_LIMIT, Text};
use qz_values::{Fault, Version, put_str, put_u64, str_at, u64_at};
use std::alloc::{AllocError, Global};

pub(crate) fn node_of(bytes: &[u8]) -> Result<(&str, &[u8]), Fault>
    ensures exact { Gives (λ x. (x.0.now, x.1.now)) result (node_at bytes.now) }
    ensures valid { IfOk result (λ x. IsTrue (is_node x.0.now)) }
{
    str_at(bytes, 1, NODE_LIMIT as u16)
}

/// A node, in memory of its own.
pub(crate) fn owned_node_of(alloc: Global, bytes: &[u8]) -> Result<(Text, &[u8]), Fault>
    ensures exact { Gives (λ x. (x.0, x.1.now)) result (node_at bytes.now) }
    ensures valid { IfOk result (λ x. IsTrue (is_node x.0)) }
{
    let (node, rest) = node_of(bytes)?;
    Ok((Text::from_str(alloc, node)?, rest))
}

#[tactic(auto, unfolding(crate::specs::Reading::member_at))]
pub(crate) fn member_of(alloc: Global, bytes: &[u8]) -> Result<(MemberRow, &[u8]), Fault>
    ensures { Gives (λ x. (x.0, x.1.now)) result (member_at bytes.now) }
{
    let (node, rest) = node_of(bytes)?;
    let (epoch, rest) = u64_at(rest)?;
    let member = MemberRow {
        node: Text::from_str(alloc, node)?,
        epoch,
    };
    Ok((member, rest))
}

pub(crate) fn put_node(out: &mut Vec<u8>, node: &Text) -> Result<(), AllocError>
    requires { IsTrue (is_node node.now) }
    ensures bytes { OnOk result (out.new.items ≡ out.old.items ++ text node.now) }
    ensures valid { IsText 1 NODE_LIMIT node.now }
{
    put_str(out, node.as_str())
}

#[tactic(auto, unfolding(crate::specs::Layout::member))]
pub(crate) fn put_member(out: &mut Vec<u8>, row: &MemberRow) -> Result<(), AllocError>
    ensures bytes { OnOk result (out.new.items ≡ out.old.items ++ member row.now) }
    ensures valid { OnOk result (IsMember row.now) }
{
    put_node(out, &row.node)?;
    put_u64(out, row.epoch)
}

impl Recorded for MemberRow {
    ghost can_put = { λ row. Unit {0} };

    ghost fields = { λ version. member };

    ghost has_record = { λ version. IsMember };

    ghost fields_at = { λ version. member_at };

    ghost most = { 130 };

    fn put_fields(&self, out: &mut Vec<u8>) -> Result<(), AllocError> {
        put_member(out, self)
    }

    fn fields_of(
        alloc: Global,
        _version: Version,
        bytes: &[u8],
    ) -> Result<(MemberRow, &[u8]), Fault> {
        member_of(alloc, bytes)
    }

    fn is_format() {}
}

impl Row for MemberRow {}
