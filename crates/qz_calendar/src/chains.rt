//! Chains of calendars, and which timestamps they include.
ghost use Rattle.std.specs.Prelude.{◌≡◌, ◌<◌, ◌++◌, [], ◌∷◌, ◌↔◌, length, true, pos, ◌-ℤ◌, ◌≤ℤ◌, IsTrue, IsOk, OnOk, OnErr};
ghost use Rattle.qz_civil.specs.Calendars.{is_calendar_kind};
ghost use Rattle.qz_civil.specs.Least.{IsNext};
ghost use Rattle.qz_calendar.specs.Chains.{Included};

use crate::calendars::{Blank, Calendar};
use crate::moments::{is_free, next_of_all};
use crate::spans::timestamp_at;
use arrayvec::ArrayVec;
use qz_civil::{CalendarKind, LAST, Zone, to_unsigned};
use std::marker::Model;
use thiserror::Error;

/// How many calendars a chain may have.
pub const CHAIN_LIMIT: usize = 8;

/// A trigger's calendar, then its base, and so on: at most `CHAIN_LIMIT` calendars, which the chain borrows. It wants no memory,
/// and includes what none of them excludes. Contracts see it as the list of its calendars.
#[derive(Drop)]
pub struct Chain<'a> {
    // None where there is no calendar.
    calendars: Option<Calendars<'a>>,
}

// Its unused places have its first calendar.
type Calendars<'a> = ArrayVec<Calendar<'a>, CHAIN_LIMIT, Blank<'a>>;

impl<'a> Model for Chain<'a> {
    ghost use Rattle.std.specs.Prelude.{List as Items};
    ghost use Rattle.qz_calendar.specs.Chains.{ZonedCalendar, calendars_of};

    ghost Value = { Items ZonedCalendar };

    ghost view = { λ a. calendars_of a.calendars };
}

/// The chain has `CHAIN_LIMIT` calendars already.
#[derive(Clone, Copy, PartialEq, Eq, Debug, Error)]
#[error("a chain has at most 8 calendars")]
pub struct ChainFull;

impl<'a> Chain<'a> {
    /// The chain without a calendar, which includes each timestamp.
    pub fn empty() -> Chain<'a>
        ensures { result ≡ [] }
    {
        Chain { calendars: None }
    }

    /// Puts a calendar after the others, as the base of the last one.
    pub fn push(&mut self, kind: &'a CalendarKind, zone: &'a Zone) -> Result<(), ChainFull>
        requires { IsTrue (is_calendar_kind kind.now) }
        ensures ok { OnOk result (self.new ≡ self.old ++ record { kind = kind.now; zone = zone.now } ∷ []) }
        ensures err { OnErr result (self.new ≡ self.old) }
        ensures full { IsOk result ↔ (length self.old < CHAIN_LIMIT) }
    {
        match &mut self.calendars {
            Some(calendars) => push_last(calendars, Calendar { kind, zone }),
            None => {
                self.calendars = Some(only(kind, zone));
                Ok(())
            }
        }
    }

    fn as_slice(&self) -> &[Calendar<'a>]
        ensures { result.now ≡ self.now }
    {
        match &self.calendars {
            Some(calendars) => calendars.as_slice(),
            None => &[],
        }
    }
}

// The calendars of a chain that has only this one.
fn only<'a>(kind: &'a CalendarKind, zone: &'a Zone) -> Calendars<'a>
    requires { is_calendar_kind kind.now ≡ true }
    ensures { result.items ≡ record { kind = kind.now; zone = zone.now } ∷ [] }
{
    let mut calendars = Calendars::new_in(Blank { kind, zone });
    calendars.push(Calendar { kind, zone });
    calendars
}

fn push_last<'a>(calendars: &mut Calendars<'a>, calendar: Calendar<'a>) -> Result<(), ChainFull>
    ensures ok { OnOk result (calendars.new.items ≡ calendars.old.items ++ calendar.entry ∷ []) }
    ensures err { OnErr result (calendars.new ≡ calendars.old) }
    ensures full { IsOk result ↔ (length calendars.old.items < CHAIN_LIMIT) }
{
    match calendars.try_push(calendar) {
        Ok(()) => Ok(()),
        Err(_) => Err(ChainFull),
    }
}

// The first timestamp from `ms` on that no calendar excludes.
fn next_from(calendars: &[Calendar<'_>], ms: i64) -> Option<i64>
    requires low { pos 0 ≤ℤ ms }
    requires high { ms ≤ℤ LAST }
    ensures { IsNext LAST (Included calendars.now) (ms -ℤ pos 1) result }
{
    let next = next_of_all(calendars, to_unsigned(ms))?;
    Some(timestamp_at(next))
}

/// Whether the chain includes the timestamp, which is in ms since 1970-01-01T00:00:00Z: no calendar of it excludes it.
pub fn included(chain: &Chain<'_>, ms: i64) -> bool
    requires low { pos 0 ≤ℤ ms }
    requires high { ms ≤ℤ LAST }
    ensures { IsTrue result ↔ Included chain.now ms }
{
    chain
        .as_slice()
        .iter()
        .all(|calendar| is_free(calendar, ms))
}

/// The least timestamp from `ms` on that the chain includes, in ms since 1970-01-01T00:00:00Z, and `None` where there is
/// none up to `LAST`.
pub fn next_included(chain: &Chain<'_>, ms: i64) -> Option<i64>
    requires low { pos 0 ≤ℤ ms }
    requires high { ms ≤ℤ LAST }
    ensures { IsNext LAST (Included chain.now) (ms -ℤ pos 1) result }
{
    next_from(chain.as_slice(), ms)
}
