//! Lines of zones and calendars.
ghost use Rattle.std.specs.Prelude.{◌≡◌, ◌++◌, ◌∷◌, [], OnOk, codes, string_bytes};
ghost use Rattle.qz_report.specs.Optional.{optional_name_text};
ghost use Rattle.qz_listing.specs.Lines as spec;

use crate::lines::Line;
use qz_report::{push_name, push_optional_name};
use qz_types::{CalendarKind, CalendarRow, Text, ZoneRow};
use std::alloc::AllocError;
use std::fmt::Write;

impl Line for ZoneRow {
    ghost line = { λ z. spec.zone_line z };

    fn push_line(&self, text: &mut String) -> Result<(), AllocError> {
        text.push_str("zone ")?;
        push_name(text, self.name.as_str())?;
        let stretches = self.zone.as_slice().len();
        write!(text, " {stretches}\n")
    }
}

impl Line for CalendarRow {
    ghost line = { λ c. spec.calendar_line c };

    fn push_line(&self, text: &mut String) -> Result<(), AllocError> {
        text.push_str("calendar ")?;
        push_name(text, self.name.as_str())?;
        text.push(' ')?;
        text.push_str(word_of(&self.kind))?;
        push_base(text, &self.base)
    }
}

fn word_of(kind: &CalendarKind) -> &'static str
    ensures { result.now ≡ spec.calendar_word kind.now }
{
    match kind {
        CalendarKind::Annual { days: _ } => "annual",
        CalendarKind::Holiday { dates: _ } => "holiday",
        CalendarKind::Weekly { days: _ } => "weekly",
        CalendarKind::Monthly { days: _ } => "monthly",
        CalendarKind::Daily {
            from: _,
            to: _,
            inverted: _,
        } => "daily",
        CalendarKind::Cron { fields: _ } => "cron",
    }
}

/// The end of the line, with the calendar below.
fn push_base(text: &mut String, base: &Option<Text>) -> Result<(), AllocError>
    ensures { OnOk result (string_bytes text.new ≡ string_bytes text.old ++ codes " base " ++ optional_name_text base.now ++ 10 ∷ []) }
{
    text.push_str(" base ")?;
    push_optional_name(text, base)?;
    text.push('\n')
}
