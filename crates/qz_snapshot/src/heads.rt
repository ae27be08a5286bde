//! The head of a snapshot, both ways.
ghost use Rattle.std.specs.Prelude.{◌≡◌, ◌≤◌, ◌+◌, ◌++◌, ℕ, OnOk, IfSome, IfNone, length};
ghost use Rattle.std.specs.Int.{w32, w64};
ghost use Rattle.qz_values.specs.Fields.{number, integer};
ghost use Rattle.qz_snapshot.specs.Heads.{number_bytes, head_bytes, HasWidths};

use qz_values::{put_i64, put_u8, put_u32, put_u64};
use std::alloc::AllocError;

/// The byte that a head begins with.
const HEAD: u8 = 0xf0;

/// How many bytes a head has.
pub(crate) const HEAD_LENGTH: usize = 53;

/// The numbers of tables.
#[derive(Clone, Copy, PartialEq, Eq, Debug)]
pub struct Numbers {
    /// The entry number that the next fired row gets.
    pub next_entry: u64,
    /// The epoch that the next member gets.
    pub next_epoch: u64,
    /// How far back a next time may be before its trigger is misfired, in ms.
    pub threshold: i64,
    /// The recorded moment of the last transaction, in ms since 1970-01-01T00:00:00Z.
    pub last_moment: i64,
    /// The last moment that is ever recorded, in ms since 1970-01-01T00:00:00Z.
    pub horizon: i64,
}

/// What the first payload of a snapshot says.
#[derive(Clone, Copy, PartialEq, Eq, Debug)]
pub struct Head {
    /// How many payloads come before it.
    pub payloads: u32,
    /// How many entries come before it.
    pub entries: u32,
    /// How many pieces follow it.
    pub pieces: u32,
    pub numbers: Numbers,
}

/// Puts a head after what is there.
pub fn put_head(out: &mut Vec<u8>, head: &Head) -> Result<(), AllocError>
    ensures { OnOk result (out.new.items ≡ out.old.items ++ head_bytes head.now) }
{
    put_u8(out, HEAD)?;
    put_u32(out, head.payloads)?;
    put_u32(out, head.entries)?;
    put_u32(out, head.pieces)?;
    put_numbers(out, &head.numbers)
}

// Puts the numbers of tables after what is there.
fn put_numbers(out: &mut Vec<u8>, numbers: &Numbers) -> Result<(), AllocError>
    ensures { OnOk result (out.new.items ≡ out.old.items ++ number_bytes numbers.now) }
{
    put_u64(out, numbers.next_entry)?;
    put_u64(out, numbers.next_epoch)?;
    put_times(out, numbers)
}

// Puts those of them that are times.
#[tactic(auto, using(qz_values::proofs::Signs::signs))]
fn put_times(out: &mut Vec<u8>, numbers: &Numbers) -> Result<(), AllocError>
    ensures { OnOk result (out.new.items ≡ out.old.items ++ (integer w64 numbers.now.threshold ++ (integer w64 numbers.now.last_moment ++ integer w64 numbers.now.horizon))) }
{
    put_i64(out, numbers.threshold)?;
    put_i64(out, numbers.last_moment)?;
    put_i64(out, numbers.horizon)
}

// The number of the first four bytes, and what follows it.
#[tactic(auto, unfolding(qz_values::specs::Fields::number))]
fn first_u32(bytes: &[u8]) -> (u32, &[u8])
    requires { 4 ≤ length bytes.now }
    ensures number { bytes.now ≡ number w32 result.0 ++ result.1.now }
    ensures rest { length bytes.now ≡ 4 + length result.1.now }
{
    let (front, rest) = bytes.split_at(4);
    let number = u32::from_be_bytes([front[0], front[1], front[2], front[3]]);
    (number, rest)
}

// The number of the first eight bytes, and what follows it.
#[tactic(auto, unfolding(qz_values::specs::Fields::number))]
fn first_u64(bytes: &[u8]) -> (u64, &[u8])
    requires { 8 ≤ length bytes.now }
    ensures number { bytes.now ≡ number w64 result.0 ++ result.1.now }
    ensures rest { length bytes.now ≡ 8 + length result.1.now }
{
    let (front, rest) = bytes.split_at(8);
    let number = u64::from_be_bytes([
        front[0], front[1], front[2], front[3], front[4], front[5], front[6], front[7],
    ]);
    (number, rest)
}

// The signed number of the first eight bytes, and what follows it.
#[tactic(auto, unfolding(qz_values::specs::Fields::integer))]
fn first_i64(bytes: &[u8]) -> (i64, &[u8])
    requires { 8 ≤ length bytes.now }
    ensures number { bytes.now ≡ integer w64 result.0 ++ result.1.now }
    ensures rest { length bytes.now ≡ 8 + length result.1.now }
{
    let (number, rest) = first_u64(bytes);
    (number.cast_signed(), rest)
}

// The numbers that these bytes are.
fn numbers_of(bytes: &[u8]) -> Numbers
    requires { length bytes.now ≡ 40 }
    ensures { bytes.now ≡ number_bytes result }
{
    let (next_entry, rest) = first_u64(bytes);
    let (next_epoch, rest) = first_u64(rest);
    let (threshold, rest) = first_i64(rest);
    let (last_moment, rest) = first_i64(rest);
    let (horizon, _) = first_i64(rest);
    Numbers {
        next_entry,
        next_epoch,
        threshold,
        last_moment,
        horizon,
    }
}

/// The head that these bytes are, or None where they are none.
#[tactic(auto, using(crate::proofs::HeadBytes::head_length))]
pub fn read_head(bytes: &[u8]) -> Option<Head>
    ensures some { IfSome result (λ head. HasWidths head × (bytes.now ≡ head_bytes head)) }
    ensures none { IfNone result ((head : Head) → bytes.now ≡ head_bytes head → ⊥) }
{
    if bytes.len() != HEAD_LENGTH {
        return None;
    }
    if bytes[0] != HEAD {
        return None;
    }
    let (payloads, rest) = first_u32(&bytes[1..]);
    let (entries, rest) = first_u32(rest);
    let (pieces, rest) = first_u32(rest);
    Some(Head {
        payloads,
        entries,
        pieces,
        numbers: numbers_of(rest),
    })
}

/// Bytes are one head at most, whose numbers have their widths. It does nothing: it is the place of that proof.
pub fn heads_are_read_in_one_way()
    ensures { (head other : Head) → HasWidths head → HasWidths other → head_bytes head ≡ head_bytes other → head ≡ other }
{}
