//! Lists: how many items there are, and the items, both ways.
ghost use Rattle.std.specs.Prelude.{◌≡◌, ◌<◌, ◌^◌, ◌++◌, OnOk, length, None};
ghost use Rattle.std.specs.List.{flat_map};
ghost use Rattle.qz_values.specs.Lists.{items_at, list, list_at};
ghost use Rattle.qz_values.specs.Reading.{Gives};

use crate::faults::Fault;
use crate::numbers::put_u16;
use crate::texts::length_of;
use crate::versions::Version;
use qz_civil::List;
use std::alloc::{AllocError, Global};

/// What stands in a list. A rule of an item may name the one before it.
pub(crate) trait Item: Copy {
    ghost use Rattle.std.specs.Prelude.{ℕ, List, Option};
    ghost use Rattle.qz_values.specs.Fields.{Read};
    ghost use Rattle.qz_values.specs.declared.versions.Version.{Version as Versions};

    /// The bytes of an item.
    ghost item: { Self → List ℕ };

    /// What is read at the front of these bytes, right after the item before.
    ghost item_at: { Versions → Option Self → List ℕ → Read Self };

    fn put_item(self, out: &mut Vec<u8>) -> Result<(), AllocError>
        ensures { OnOk result (out.new.items ≡ out.old.items ++ item self) };

    fn item_of(version: Version, before: Option<Self>, bytes: &[u8]) -> Result<(Self, &[u8]), Fault>
        ensures { Gives (λ x. (x.0, x.1.now)) result (item_at version before bytes.now) };
}

/// So many items.
fn counted_of<I: Item>(
    alloc: Global,
    version: Version,
    count: usize,
    bytes: &[u8],
) -> Result<(List<I>, &[u8]), Fault>
    ensures { Gives (λ x. (x.0, x.1.now)) result (items_at (I.item_at version) count None bytes.now) }
{
    let mut items = Vec::new(alloc);
    let mut before = None;
    let mut rest = bytes;
    for _ in 0..count {
        let (item, after) = I::item_of(version, before, rest)?;
        items.push(item)?;
        before = Some(item);
        rest = after;
    }
    Ok((List::from_vec(items), rest))
}

/// A list of `least` to `most` items.
pub(crate) fn list_of<I: Item>(
    alloc: Global,
    version: Version,
    bytes: &[u8],
    least: u16,
    most: u16,
) -> Result<(List<I>, &[u8]), Fault>
    ensures { Gives (λ x. (x.0, x.1.now)) result (list_at least most (I.item_at version) bytes.now) }
{
    let (count, rest) = length_of(bytes, least, most)?;
    counted_of(alloc, version, count, rest)
}

fn put_items<I: Item>(out: &mut Vec<u8>, items: &[I]) -> Result<(), AllocError>
    ensures { OnOk result (out.new.items ≡ out.old.items ++ flat_map I.item items.now) }
{
    for item in items {
        item.put_item(out)?;
    }
    Ok(())
}

/// How many items there are, and the items.
pub(crate) fn put_list<I: Item>(out: &mut Vec<u8>, items: &[I]) -> Result<(), AllocError>
    requires { length items.now < 2 ^ 16 }
    ensures { OnOk result (out.new.items ≡ out.old.items ++ list I.item items.now) }
{
    put_u16(out, items.len() as u16)?;
    put_items(out, items)
}
