//! Zones.
ghost use Rattle.std.specs.Prelude.{◌≡◌, IfOk};

use qz_civil::{Text, Zone};
use std::alloc::AllocError;
use std::marker::Model;

/// A stored zone. `UTC` is known without a row.
#[derive(Debug, Drop)]
pub struct ZoneRow {
    /// 1 to `NAME_LIMIT` bytes.
    pub name: Text,
    pub zone: Zone,
}

impl Model for ZoneRow {
    ghost use Rattle.std.specs.Prelude.{IsTrue};
    ghost use Rattle.qz_types.specs.Rows.{ZoneData, is_zone_row};

    ghost Value = { ZoneData };

    ghost view = { λ a. record { name = a.name; stretches = a.zone } };

    ghost invariant = { λ a. IsTrue (is_zone_row (record { name = a.name; stretches = a.zone })) };

    ghost inverse = { λ d. record { name = d.name; zone = d.stretches } };
}

impl Clone for ZoneRow {
    ghost is_clone = { λ a b. b ≡ a };

    fn clone(&self) -> Result<Self, AllocError> {
        Ok(ZoneRow {
            name: self.name.clone()?,
            zone: self.zone.clone()?,
        })
    }
}

impl ZoneRow {
    /// The same zone again.
    pub fn copy(&self) -> Result<Self, AllocError>
        ensures { IfOk result (λ row. row ≡ self.now) }
    {
        self.clone()
    }
}
