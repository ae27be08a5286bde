//! Chains of calendars.
ghost use Rattle.std.specs.Prelude.{[], ◌∷◌, ◌++◌, ◌↔◌, pos, ◌≤ℤ◌, IfOk, IsTrue};
ghost use Rattle.qz_calendar.specs.Chains.{Included};
ghost use Rattle.qz_civil.specs.Calendars.{is_calendar_kind};

use qz_calendar::{Chain, ChainFull};
use qz_civil::{CalendarKind, LAST, Zone};

/// Whether a chain includes a timestamp once it has one more base: `Chain::push`, and then `qz_calendar::included`.
pub fn included_with_base<'a>(
    chain: &mut Chain<'a>,
    base: &'a CalendarKind,
    zone: &'a Zone,
    ms: i64,
) -> Result<bool, ChainFull>
    requires base { IsTrue (is_calendar_kind base.now) }
    requires low { pos 0 ≤ℤ ms }
    requires high { ms ≤ℤ LAST }
    ensures { IfOk result (λ included. IsTrue included ↔ Included (chain.old ++ record { kind = base.now; zone = zone.now } ∷ []) ms) }
{
    let pushed = chain.push(base, zone);
    match pushed {
        Ok(()) => Ok(qz_calendar::included(chain, ms)),
        Err(full) => Err(full),
    }
}
