//! Lists, once for every kind of item.
ghost use Rattle.std.specs.Prelude.{◌≡◌, ◌++◌, ◌∷◌, ℕ, List as Items, OnOk};
ghost use Rattle.std.specs.List.{flat_map};
ghost use Rattle.qz_json_rows.specs.Json.{listed};

use std::alloc::AllocError;

/// What stands in a list.
pub(crate) trait Item {
    ghost shown: { Self → Items ℕ };

    /// Adds the item.
    fn push_item(&self, text: &mut Vec<u8>) -> Result<(), AllocError>
        ensures { OnOk result (text.new.items ≡ text.old.items ++ shown self.now) };
}

/// Adds the items in their order, with commas between, in brackets.
pub(crate) fn push_list<I: Item>(text: &mut Vec<u8>, items: &[I]) -> Result<(), AllocError>
    ensures { OnOk result (text.new.items ≡ text.old.items ++ listed I.shown items.now) }
{
    match items.split_first() {
        None => text.extend_from_slice(b"[]"),
        Some((first, further)) => {
            text.extend_from_slice(b"[")?;
            first.push_item(text)?;
            push_further(text, further)?;
            text.extend_from_slice(b"]")
        }
    }
}

fn push_further<I: Item>(text: &mut Vec<u8>, items: &[I]) -> Result<(), AllocError>
    ensures { OnOk result (text.new.items ≡ text.old.items ++ flat_map (λ y. 44 ∷ I.shown y) items.now) }
{
    for item in items {
        push_one_more(text, item)?;
    }
    Ok(())
}

fn push_one_more<I: Item>(text: &mut Vec<u8>, item: &I) -> Result<(), AllocError>
    ensures { OnOk result (text.new.items ≡ text.old.items ++ 44 ∷ I.shown item.now) }
{
    text.extend_from_slice(b",")?;
    item.push_item(text)
}
