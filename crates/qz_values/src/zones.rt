//! Stretches of zones, both ways.
ghost use Rattle.std.specs.Prelude.{◌≡◌, ◌++◌, IfOk, OnOk, None, option_map};
ghost use Rattle.std.specs.Int.{w32, w64};
ghost use Rattle.qz_civil.specs.Zones as spec;
ghost use Rattle.qz_civil.specs.declared.limits.TheConstants.{STRETCH_LIMIT};
ghost use Rattle.qz_values.specs.Lists.{list, list_at};
ghost use Rattle.qz_values.specs.Reading.{Gives};
ghost use Rattle.qz_values.specs.Fields.{checked, integer_at};
ghost use Rattle.qz_values.specs.Zones as format;
ghost use Rattle.qz_values.specs.declared.versions.Version.TheVariants.{Two};

use crate::faults::Fault;
use crate::lists::{Item, list_of, put_list};
use crate::numbers::{i32_at, i64_at, put_i32, put_i64};
use crate::versions::Version;
use qz_civil::{List, STRETCH_LIMIT, Stretch, Zone, is_offset, may_begin};
use std::alloc::{AllocError, Global};

/// Where a stretch begins, right after one that begins at `before`.
fn from_of(version: Version, before: Option<i64>, bytes: &[u8]) -> Result<(i64, &[u8]), Fault>
    ensures { Gives (λ x. (x.0, x.1.now)) result (checked (format.may_begin version before) (integer_at w64) bytes.now) }
{
    match i64_at(bytes) {
        Ok((from, _)) if !version.has_moment(from) || !may_begin(before, from) => Err(Fault::at(
            bytes,
        )),
        read => read,
    }
}

fn offset_of(bytes: &[u8]) -> Result<(i32, &[u8]), Fault>
    ensures { Gives (λ x. (x.0, x.1.now)) result (checked spec.is_offset (integer_at w32) bytes.now) }
{
    match i32_at(bytes) {
        Ok((offset, _)) if !is_offset(offset) => Err(Fault::at(bytes)),
        read => read,
    }
}

fn start_of(stretch: Option<Stretch>) -> Option<i64>
    ensures { result ≡ option_map (λ s. s.from) stretch }
{
    match stretch {
        None => None,
        Some(stretch) => Some(stretch.from),
    }
}

#[tactic(auto, unfolding(crate::specs::Zones::stretch), using(crate::proofs::Signs::signs))]
fn put_stretch(out: &mut Vec<u8>, stretch: Stretch) -> Result<(), AllocError>
    ensures { OnOk result (out.new.items ≡ out.old.items ++ format.stretch stretch) }
{
    put_i64(out, stretch.from)?;
    put_i32(out, stretch.offset)
}

/// A stretch of a zone's table.
impl Item for Stretch {
    ghost item = { format.stretch };

    ghost item_at = { format.next_stretch_at };

    fn put_item(self, out: &mut Vec<u8>) -> Result<(), AllocError> {
        put_stretch(out, self)
    }

    #[tactic(auto, unfolding(crate::specs::Zones::next_stretch_at))]
    fn item_of(
        version: Version,
        before: Option<Stretch>,
        bytes: &[u8],
    ) -> Result<(Stretch, &[u8]), Fault>
        ensures { Gives (λ x. (x.0, x.1.now)) result (format.next_stretch_at version before bytes.now) }
    {
        let (from, rest) = from_of(version, start_of(before), bytes)?;
        let (offset, rest) = offset_of(rest)?;
        Ok((Stretch { from, offset }, rest))
    }
}

// The stretches of a zone's table.
fn stretches_of(
    alloc: Global,
    version: Version,
    bytes: &[u8],
) -> Result<(List<Stretch>, &[u8]), Fault>
    ensures exact { Gives (λ x. (x.0, x.1.now)) result (list_at 1 STRETCH_LIMIT (format.next_stretch_at version) bytes.now) }
    ensures valid { IfOk result (λ x. spec.bad_zone x.0 ≡ None) }
{
    list_of(alloc, version, bytes, 1, STRETCH_LIMIT as u16)
}

/// A zone, by its stretches.
pub fn zone_of(alloc: Global, version: Version, bytes: &[u8]) -> Result<(Zone, &[u8]), Fault>
    ensures exact { Gives (λ x. (x.0, x.1.now)) result (list_at 1 STRETCH_LIMIT (format.next_stretch_at version) bytes.now) }
    ensures valid { IfOk result (λ x. spec.bad_zone x.0 ≡ None) }
{
    let (stretches, rest) = stretches_of(alloc, version, bytes)?;
    match Zone::table(stretches) {
        Ok(zone) => Ok((zone, rest)),
        Err(_) => unreachable!(),
    }
}

/// A zone, by its stretches.
pub fn put_zone(out: &mut Vec<u8>, zone: &Zone) -> Result<(), AllocError>
    ensures bytes { OnOk result (out.new.items ≡ out.old.items ++ list format.stretch zone.now) }
    ensures valid { format.IsTable Two zone.now }
{
    put_list(out, zone.as_slice())
}
