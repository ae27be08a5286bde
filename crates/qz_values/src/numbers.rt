//! Numbers and flags, both ways. Each reader answers the value and the bytes after it.
ghost use Rattle.std.specs.Prelude.{◌≡◌, ℕ, ℤ, ◌<◌, ◌^◌, ◌++◌, ◌∷◌, [], OnOk, true, FitsSigned};
ghost use Rattle.std.specs.Int.{w8, w16, w32, w64};
ghost use Rattle.qz_values.specs.Fields.{byte_at, number_at, integer_at, small_at, flag_at, number, integer, small, flag};
ghost use Rattle.qz_values.specs.Reading.{Gives};

use crate::faults::Fault;
use std::alloc::AllocError;

/// The first byte.
#[tactic(auto, unfolding(crate::specs::Fields::byte_at))]
pub fn u8_at(bytes: &[u8]) -> Result<(u8, &[u8]), Fault>
    ensures { Gives (λ x. (x.0, x.1.now)) result (byte_at bytes.now) }
{
    match bytes {
        [] => Err(Fault::at(bytes)),
        [byte, rest @ ..] => Ok((*byte, rest)),
    }
}

#[tactic(auto, unfolding(crate::specs::Fields::number_at))]
pub(crate) fn u16_at(bytes: &[u8]) -> Result<(u16, &[u8]), Fault>
    ensures { Gives (λ x. (x.0, x.1.now)) result (number_at w16 bytes.now) }
{
    if bytes.len() < 2 {
        return Err(Fault::at(bytes));
    }
    let (front, rest) = bytes.split_at(2);
    Ok((u16::from_be_bytes([front[0], front[1]]), rest))
}

/// The first four bytes as a number, the greatest place first.
#[tactic(auto, unfolding(crate::specs::Fields::number_at))]
pub fn u32_at(bytes: &[u8]) -> Result<(u32, &[u8]), Fault>
    ensures { Gives (λ x. (x.0, x.1.now)) result (number_at w32 bytes.now) }
{
    if bytes.len() < 4 {
        return Err(Fault::at(bytes));
    }
    let (front, rest) = bytes.split_at(4);
    Ok((
        u32::from_be_bytes([front[0], front[1], front[2], front[3]]),
        rest,
    ))
}

/// The first eight bytes as a number, the greatest place first.
#[tactic(auto, unfolding(crate::specs::Fields::number_at))]
pub fn u64_at(bytes: &[u8]) -> Result<(u64, &[u8]), Fault>
    ensures { Gives (λ x. (x.0, x.1.now)) result (number_at w64 bytes.now) }
{
    if bytes.len() < 8 {
        return Err(Fault::at(bytes));
    }
    let (front, rest) = bytes.split_at(8);
    let number = u64::from_be_bytes([
        front[0], front[1], front[2], front[3], front[4], front[5], front[6], front[7],
    ]);
    Ok((number, rest))
}

#[tactic(auto, unfolding(crate::specs::Fields::small_at))]
pub(crate) fn i8_at(bytes: &[u8]) -> Result<(i8, &[u8]), Fault>
    ensures { Gives (λ x. (x.0, x.1.now)) result (small_at bytes.now) }
{
    let (byte, rest) = u8_at(bytes)?;
    Ok((byte.cast_signed(), rest))
}

/// The first four bytes as a number, the greatest place first, in two's complement.
#[tactic(auto, unfolding(crate::specs::Fields::integer_at))]
pub fn i32_at(bytes: &[u8]) -> Result<(i32, &[u8]), Fault>
    ensures { Gives (λ x. (x.0, x.1.now)) result (integer_at w32 bytes.now) }
{
    let (number, rest) = u32_at(bytes)?;
    Ok((number.cast_signed(), rest))
}

/// The first eight bytes as a number, the greatest place first, in two's complement.
#[tactic(auto, unfolding(crate::specs::Fields::integer_at))]
pub fn i64_at(bytes: &[u8]) -> Result<(i64, &[u8]), Fault>
    ensures { Gives (λ x. (x.0, x.1.now)) result (integer_at w64 bytes.now) }
{
    let (number, rest) = u64_at(bytes)?;
    Ok((number.cast_signed(), rest))
}

/// The first byte as a flag: `00` for false, `01` for true, and no other.
#[tactic(auto, unfolding(crate::specs::Fields::flag_at))]
pub fn bool_at(bytes: &[u8]) -> Result<(bool, &[u8]), Fault>
    ensures { Gives (λ x. (x.0, x.1.now)) result (flag_at bytes.now) }
{
    match u8_at(bytes) {
        Ok((byte, rest)) if byte < 2 => Ok((byte == 1, rest)),
        Ok(_) => Err(Fault::at(bytes)),
        Err(fault) => Err(fault),
    }
}

/// Puts one byte.
pub fn put_u8(out: &mut Vec<u8>, n: u8) -> Result<(), AllocError>
    ensures { OnOk result (out.new.items ≡ out.old.items ++ n ∷ []) }
{
    out.push(n)?;
    Ok(())
}

#[tactic(auto, unfolding(crate::specs::Fields::number))]
pub(crate) fn put_u16(out: &mut Vec<u8>, n: u16) -> Result<(), AllocError>
    ensures { OnOk result (out.new.items ≡ out.old.items ++ number w16 n) }
{
    out.extend_from_slice(&n.to_be_bytes())
}

/// Puts a number in four bytes, the greatest place first.
#[tactic(auto, unfolding(crate::specs::Fields::number))]
pub fn put_u32(out: &mut Vec<u8>, n: u32) -> Result<(), AllocError>
    ensures bytes { OnOk result (out.new.items ≡ out.old.items ++ number w32 n) }
    ensures valid { n < 2 ^ 32 }
{
    out.extend_from_slice(&n.to_be_bytes())
}

/// Puts a number in eight bytes, the greatest place first.
#[tactic(auto, unfolding(crate::specs::Fields::number))]
pub fn put_u64(out: &mut Vec<u8>, n: u64) -> Result<(), AllocError>
    ensures bytes { OnOk result (out.new.items ≡ out.old.items ++ number w64 n) }
    ensures valid { n < 2 ^ 64 }
{
    out.extend_from_slice(&n.to_be_bytes())
}

#[tactic(auto, unfolding(crate::specs::Fields::small))]
pub(crate) fn put_i8(out: &mut Vec<u8>, n: i8) -> Result<(), AllocError>
    ensures bytes { OnOk result (out.new.items ≡ out.old.items ++ small n) }
    ensures valid { FitsSigned w8 n }
{
    out.extend_from_slice(&n.to_be_bytes())
}

/// Puts a number in four bytes, the greatest place first, in two's complement.
#[tactic(auto, unfolding(crate::specs::Fields::integer, crate::specs::Fields::number))]
pub fn put_i32(out: &mut Vec<u8>, n: i32) -> Result<(), AllocError>
    ensures bytes { OnOk result (out.new.items ≡ out.old.items ++ integer w32 n) }
    ensures valid { FitsSigned w32 n }
{
    out.extend_from_slice(&n.to_be_bytes())
}

/// Puts a number in eight bytes, the greatest place first, in two's complement.
#[tactic(auto, unfolding(crate::specs::Fields::integer, crate::specs::Fields::number))]
pub fn put_i64(out: &mut Vec<u8>, n: i64) -> Result<(), AllocError>
    ensures bytes { OnOk result (out.new.items ≡ out.old.items ++ integer w64 n) }
    ensures valid { FitsSigned w64 n }
{
    out.extend_from_slice(&n.to_be_bytes())
}

/// Puts a flag: `00` for false, `01` for true.
pub fn put_bool(out: &mut Vec<u8>, b: bool) -> Result<(), AllocError>
    ensures { OnOk result (out.new.items ≡ out.old.items ++ flag b) }
{
    out.push(if b { 1 } else { 0 })?;
    Ok(())
}
