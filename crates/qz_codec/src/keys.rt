//! Keys, both ways.
ghost use Rattle.std.specs.Prelude.{◌≡◌, ℕ, ℤ, IsTrue, IfOk, ◌++◌, OnOk};
ghost use Rattle.qz_types.specs.Rows.{is_key};
ghost use Rattle.qz_values.specs.Reading.{Gives};
ghost use Rattle.qz_codec.specs.Reading.{key_at};
ghost use Rattle.qz_codec.specs.Values.{IsKey};
ghost use Rattle.qz_codec.specs.Layout.{key, entry};

use qz_civil::beside;
use qz_types::Key;
use qz_values::{Fault, name_of, put_name};
use std::alloc::{AllocError, Global};

/// Memory for two keys of these groups and names.
pub(crate) fn make_keys(
    alloc: Global,
    first: (&str, &str),
    second: (&str, &str),
) -> Result<(Key, Key), AllocError>
    ensures first { IfOk result (λ k. k.0 ≡ record { group = first.entry.0.now; name = first.entry.1.now }) }
    ensures second { IfOk result (λ k. k.1 ≡ record { group = second.entry.0.now; name = second.entry.1.now }) }
{
    let first = Key::new(alloc, first.0, first.1)?;
    beside(first, Key::new(alloc, second.0, second.1))
}

/// The group and the name of a key.
#[tactic(auto, unfolding(crate::specs::Reading::key_at))]
pub(crate) fn names_of(bytes: &[u8]) -> Result<((&str, &str), &[u8]), Fault>
    ensures exact { Gives (λ x. (record { group = x.0.0.now; name = x.0.1.now }, x.1.now)) result (key_at bytes.now) }
    ensures valid { IfOk result (λ x. IsTrue (is_key (record { group = x.0.0.now; name = x.0.1.now }))) }
{
    let (group, rest) = name_of(bytes)?;
    let (name, rest) = name_of(rest)?;
    Ok(((group, name), rest))
}

pub(crate) fn key_of(alloc: Global, bytes: &[u8]) -> Result<(Key, &[u8]), Fault>
    ensures exact { Gives (λ x. (x.0, x.1.now)) result (key_at bytes.now) }
    ensures valid { IfOk result (λ x. IsTrue (is_key x.0)) }
{
    let (names, rest) = names_of(bytes)?;
    Ok((Key::new(alloc, names.0, names.1)?, rest))
}

#[tactic(auto, unfolding(crate::specs::Layout::key))]
pub(crate) fn put_key(out: &mut Vec<u8>, k: &Key) -> Result<(), AllocError>
    requires { IsTrue (is_key k.now) }
    ensures bytes { OnOk result (out.new.items ≡ out.old.items ++ key k.now) }
    ensures valid { OnOk result (IsKey k.now) }
{
    put_name(out, &k.group)?;
    put_name(out, &k.name)
}
