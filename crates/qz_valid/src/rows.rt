//! Whether what a row names is stored.
ghost use Rattle.std.specs.Prelude.{◌≡◌, option_copied};
ghost use Rattle.qz_model.specs.Plan.{zone_named_by, is_utc, is_known_zone, is_known_zone_name, is_known_calendar};

use qz_apply::same_text;
use qz_tables::Tables;
use qz_types::{Kind, Text};

/// Whether a zone of this name can be used. `UTC` always can.
#[tactic(auto, unfolding(qz_model::specs::Plan::is_known_zone, qz_model::specs::Plan::is_utc))]
pub fn is_known_zone(tables: &Tables, name: &Text) -> bool
    ensures { result ≡ is_known_zone tables.now.tables.zones name.now }
{
    same_text(name.as_str(), "UTC") || tables.get_zone(name).is_some()
}

/// Whether the zone can be used in which the kind reads local times, if it reads any.
pub fn has_known_zone(tables: &Tables, kind: &Kind) -> bool
    ensures { result ≡ is_known_zone_name tables.now.tables.zones (zone_named_by kind.now) }
{
    match kind {
        Kind::Simple { .. } => true,
        Kind::Cron { zone, .. } | Kind::Interval { zone, .. } | Kind::Daily { zone, .. } => {
            is_known_zone(tables, zone)
        }
    }
}

/// Whether the calendar of this name is stored, if a name is given.
pub fn is_known_calendar(tables: &Tables, name: &Option<Text>) -> bool
    ensures { result ≡ is_known_calendar tables.now.tables.calendars name.now }
{
    match name {
        None => true,
        Some(name) => tables.get_calendar(name).is_some(),
    }
}
