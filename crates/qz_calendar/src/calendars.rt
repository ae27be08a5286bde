//! A calendar with its zone.
ghost use Rattle.std.specs.Prelude.{◌≡◌, true};
ghost use Rattle.qz_civil.specs.Calendars.{is_calendar_kind};

use qz_civil::{CalendarKind, Zone};
use std::default::MadeWith;
use std::marker::Model;

/// A calendar and the zone whose local time it reads.
#[derive(Drop)]
pub struct Calendar<'a> {
    pub kind: &'a CalendarKind,
    pub zone: &'a Zone,
}

impl<'a> Model for Calendar<'a> {
    ghost use Rattle.std.specs.Prelude.{◌≡◌, true};
    ghost use Rattle.qz_civil.specs.Calendars.{is_calendar_kind};
    ghost use Rattle.qz_calendar.specs.Chains.{ZonedCalendar};

    ghost Value = { ZonedCalendar };

    ghost view = { λ a. record { kind = a.kind.now; zone = a.zone.now } };

    ghost invariant = { λ a. is_calendar_kind a.kind.now ≡ true };
}

/// The calendar that lies in the unused places of a vector.
#[derive(Clone, Copy)]
pub struct Blank<'a> {
    pub kind: &'a CalendarKind,
    pub zone: &'a Zone,
    pub ghost valid: { is_calendar_kind kind.now ≡ true },
}

impl<'a> MadeWith<Blank<'a>> for Calendar<'a> {
    fn made_with(blank: Blank<'a>) -> Self {
        Calendar {
            kind: blank.kind,
            zone: blank.zone,
        }
    }
}
