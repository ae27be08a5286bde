//! Timings of triggers, both ways.
ghost use Rattle.std.specs.Prelude.{◌≡◌, ℕ, ℤ, ◌<◌, IsTrue, IfOk, ◌++◌, OnOk};
ghost use Rattle.qz_civil.specs.Timings.{is_misfire, is_timing};
ghost use Rattle.qz_values.specs.Reading.{Gives};
ghost use Rattle.qz_values.specs.Fields.{checked, small_at};
ghost use Rattle.qz_values.specs.Timings.{timing_at, IsTiming, timing};
ghost use Rattle.qz_values.specs.declared.versions.Version.TheVariants.{Two};

use crate::faults::Fault;
use crate::kinds::{kind_of, put_kind};
use crate::numbers::{i8_at, put_i8, put_i64};
use crate::times::{end_of, put_end, span_of};
use crate::versions::Version;
use qz_civil::{Kind, Timing, beside};
use std::alloc::{AllocError, Global};

/// The misfire instruction of a trigger of this kind.
pub(crate) fn misfire_of<'a>(kind: &Kind, bytes: &'a [u8]) -> Result<(i8, &'a [u8]), Fault>
    ensures exact { Gives (λ x. (x.0, x.1.now)) result (checked (is_misfire kind.now) small_at bytes.now) }
    ensures valid { IfOk result (λ x. IsTrue (is_misfire kind.now x.0)) }
{
    let (code, rest) = i8_at(bytes)?;
    let most = match kind {
        Kind::Simple { .. } => 5,
        Kind::Cron { .. } | Kind::Interval { .. } | Kind::Daily { .. } => 2,
    };
    if code < -1 || code > most {
        return Err(Fault::at(bytes));
    }
    Ok((code, rest))
}

/// A timing: its kind, its misfire instruction in one byte, its start in ms, and its end in ms where it has one.
#[tactic(auto, unfolding(crate::specs::Timings::timing_at))]
pub fn timing_of(alloc: Global, version: Version, bytes: &[u8]) -> Result<(Timing, &[u8]), Fault>
    ensures exact { Gives (λ x. (x.0, x.1.now)) result (timing_at version bytes.now) }
    ensures valid { IfOk result (λ x. IsTrue (is_timing x.0)) }
{
    let (kind, rest) = kind_of(alloc, version, bytes)?;
    let misfire = misfire_of(&kind, rest);
    let (kind, (misfire, rest)) = beside(kind, misfire)?;
    let (kind, (start, rest)) = beside(kind, span_of(rest))?;
    let (kind, (end, rest)) = beside(kind, end_of(rest))?;
    let timing = Timing {
        kind,
        misfire,
        start,
        end,
    };
    Ok((timing, rest))
}

/// Puts a timing.
#[tactic(auto, unfolding(crate::specs::Timings::timing), using(crate::proofs::Signs::signs))]
pub fn put_timing(out: &mut Vec<u8>, t: &Timing) -> Result<(), AllocError>
    requires { IsTrue (is_timing t.now) }
    ensures bytes { OnOk result (out.new.items ≡ out.old.items ++ timing Two t.now) }
    ensures valid { OnOk result (IsTiming Two t.now) }
{
    put_kind(out, &t.kind)?;
    put_i8(out, t.misfire)?;
    put_i64(out, t.start)?;
    put_end(out, &t.end)
}
