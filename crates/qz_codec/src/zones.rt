//! Zones, both ways.
ghost use Rattle.std.specs.Prelude.{◌≡◌, ◌++◌, OnOk};
ghost use Rattle.qz_values.specs.Reading.{Gives};
ghost use Rattle.qz_codec.specs.Zones.{zone_row, IsZoneRow, zone_row_at};
ghost use Rattle.qz_values.specs.declared.versions.Version.TheVariants.{Two};

use crate::records::{Recorded, Row};
use qz_types::{Text, ZoneRow};
use qz_values::{Fault, Version, name_of, put_name, put_zone, zone_of};
use std::alloc::{AllocError, Global};

#[tactic(auto, unfolding(crate::specs::Zones::zone_row_at))]
pub(crate) fn zone_row_of(
    alloc: Global,
    version: Version,
    bytes: &[u8],
) -> Result<(ZoneRow, &[u8]), Fault>
    ensures { Gives (λ x. (x.0, x.1.now)) result (zone_row_at version bytes.now) }
{
    let (name, rest) = name_of(bytes)?;
    let (zone, rest) = zone_of(alloc, version, rest)?;
    let row = ZoneRow {
        name: Text::from_str(alloc, name)?,
        zone,
    };
    Ok((row, rest))
}

#[tactic(auto, unfolding(crate::specs::Zones::zone_row))]
pub(crate) fn put_zone_row(out: &mut Vec<u8>, row: &ZoneRow) -> Result<(), AllocError>
    ensures bytes { OnOk result (out.new.items ≡ out.old.items ++ zone_row row.now) }
    ensures valid { OnOk result (IsZoneRow Two row.now) }
{
    put_name(out, &row.name)?;
    put_zone(out, &row.zone)
}

impl Recorded for ZoneRow {
    ghost can_put = { λ row. Unit {0} };

    ghost fields = { λ version. zone_row };

    ghost has_record = { IsZoneRow };

    ghost fields_at = { zone_row_at };

    ghost most = { 6348 };

    fn put_fields(&self, out: &mut Vec<u8>) -> Result<(), AllocError> {
        put_zone_row(out, self)
    }

    fn fields_of(alloc: Global, version: Version, bytes: &[u8]) -> Result<(ZoneRow, &[u8]), Fault> {
        zone_row_of(alloc, version, bytes)
    }

    fn is_format() {}
}

impl Row for ZoneRow {}
