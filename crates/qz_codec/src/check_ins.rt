//! Check-ins, both ways: the rows of the state store.
ghost use Rattle.std.specs.Prelude.{◌≡◌, ℕ, ℤ, IsTrue, IfOk, ◌++◌, OnOk, Ok};
ghost use Rattle.std.specs.Int.{w64};
ghost use Rattle.qz_types.specs.Rows.{is_interval};
ghost use Rattle.qz_values.specs.Fields.{integer_at, checked, integer, IsNumber};
ghost use Rattle.qz_values.specs.Reading.{Gives};
ghost use Rattle.qz_codec.specs.Rows.{state, IsState, state_at};

use crate::members::{node_of, put_node};
use crate::records::{Recorded, Row};
use qz_types::{INTERVAL_LIMIT, StateRow, Text};
use qz_values::{Fault, Version, i64_at, is_between, put_i64};
use std::alloc::{AllocError, Global};

/// A check-in interval or a threshold, in ms.
pub(crate) fn interval_of(bytes: &[u8]) -> Result<(i64, &[u8]), Fault>
    ensures exact { Gives (λ x. (x.0, x.1.now)) result (checked is_interval (integer_at w64) bytes.now) }
    ensures valid { IfOk result (λ x. IsTrue (is_interval x.0)) }
{
    match i64_at(bytes) {
        Ok((interval, _)) if !is_between(1, INTERVAL_LIMIT, interval) => Err(Fault::at(bytes)),
        read => read,
    }
}

pub(crate) fn put_interval(out: &mut Vec<u8>, interval: i64) -> Result<(), AllocError>
    requires { IsTrue (is_interval interval) }
    ensures bytes { OnOk result (out.new.items ≡ out.old.items ++ integer w64 interval) }
    ensures valid { IsNumber w64 is_interval interval }
{
    put_i64(out, interval)
}

#[tactic(auto, unfolding(crate::specs::Rows::state_at))]
fn state_of(alloc: Global, bytes: &[u8]) -> Result<(StateRow, &[u8]), Fault>
    ensures { Gives (λ x. (x.0, x.1.now)) result (state_at bytes.now) }
{
    let (node, rest) = node_of(bytes)?;
    let (last, rest) = i64_at(rest)?;
    let (interval, rest) = interval_of(rest)?;
    let row = StateRow {
        node: Text::from_str(alloc, node)?,
        last,
        interval,
    };
    Ok((row, rest))
}

#[tactic(auto, unfolding(crate::specs::Rows::state))]
fn put_state(out: &mut Vec<u8>, row: &StateRow) -> Result<(), AllocError>
    ensures bytes { OnOk result (out.new.items ≡ out.old.items ++ state row.now) }
    ensures valid { OnOk result (IsState row.now) }
{
    put_node(out, &row.node)?;
    put_i64(out, row.last)?;
    put_interval(out, row.interval)
}

impl Recorded for StateRow {
    ghost can_put = { λ row. Unit {0} };

    ghost fields = { λ version. state };

    ghost has_record = { λ version. IsState };

    ghost fields_at = { λ version. state_at };

    ghost most = { 138 };

    fn put_fields(&self, out: &mut Vec<u8>) -> Result<(), AllocError> {
        put_state(out, self)
    }

    fn fields_of(
        alloc: Global,
        _version: Version,
        bytes: &[u8],
    ) -> Result<(StateRow, &[u8]), Fault> {
        state_of(alloc, bytes)
    }

    fn is_format() {}
}

impl Row for StateRow {}
