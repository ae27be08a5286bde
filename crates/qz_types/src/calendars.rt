//! Calendars.
ghost use Rattle.std.specs.Prelude.{◌≡◌, IfOk};

use qz_civil::{CalendarKind, Text};
use std::alloc::AllocError;
use std::marker::Model;

/// A stored calendar. A trigger that names it doesn't fire at what it excludes. Its three names have 1 to `NAME_LIMIT`
/// bytes each.
#[derive(Debug, Drop)]
pub struct CalendarRow {
    pub name: Text,
    /// A calendar that excludes too.
    pub base: Option<Text>,
    /// The zone in whose local time it is read: `UTC`, or a zone that is stored.
    pub zone: Text,
    pub kind: CalendarKind,
}

impl Model for CalendarRow {
    ghost use Rattle.std.specs.Prelude.{IsTrue};
    ghost use Rattle.qz_types.specs.Rows.{CalendarData, is_calendar_row};

    ghost Value = { CalendarData };

    ghost view = { λ a. record { name = a.name; base = a.base; zone = a.zone; kind = a.kind } };

    ghost invariant = { λ a. IsTrue (is_calendar_row (record { name = a.name; base = a.base; zone = a.zone; kind = a.kind })) };

    ghost inverse = { λ d. record { name = d.name; base = d.base; zone = d.zone; kind = d.kind } };
}

impl Clone for CalendarRow {
    ghost is_clone = { λ a b. b ≡ a };

    fn clone(&self) -> Result<Self, AllocError> {
        Ok(CalendarRow {
            name: self.name.clone()?,
            base: self.base.clone()?,
            zone: self.zone.clone()?,
            kind: self.kind.clone()?,
        })
    }
}

impl CalendarRow {
    /// The same calendar again.
    pub fn copy(&self) -> Result<Self, AllocError>
        ensures { IfOk result (λ row. row ≡ self.now) }
    {
        self.clone()
    }
}
