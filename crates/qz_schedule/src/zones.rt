//! Storing a zone, and deleting one that nothing names.
ghost use Rattle.std.specs.Prelude.{◌≡◌, ◌≤◌, None, option_copied};
ghost use Rattle.qz_types.specs.Outcomes.{accepted};
ghost use Rattle.qz_model.specs.Calendars.{add_zone_refusal, add_zone, zone_uses, delete_zone_refusal, delete_zone};
ghost use Rattle.qz_model.specs.Invariant.{TablesValid};

use crate::known::is_known_zone;
use crate::uses::{calendars_in_zone, triggers_in_zone, use_refusal};
use qz_tables::Tables;
use qz_types::{Refusal, Reply, Text, ZONE_LIMIT, ZoneRow};

/// Stores a zone of a new name, which nothing refuses. The moment is in ms since 1970-01-01T00:00:00Z.
#[tactic(auto, using(crate::proofs::Absent::no_zone))]
pub fn add_zone(tables: &mut Tables, moment: i64, zone: ZoneRow) -> Reply
    requires accepts { add_zone_refusal tables.old.tables zone ≡ None }
    requires spare { 1 ≤ tables.old.spare.zones }
    ensures { add_zone tables.old.tables moment zone ≡ accepted tables.new.tables result }
{
    tables.insert_zone(zone);
    tables.set_last_moment(moment);
    Reply::Done
}

/// Why the zone isn't stored, if it isn't.
#[tactic(auto, unfolding(qz_model::specs::Calendars::add_zone_refusal))]
pub fn add_zone_refusal(tables: &Tables, zone: &ZoneRow) -> Option<Refusal>
    ensures { result ≡ add_zone_refusal tables.now.tables zone.now }
{
    if is_known_zone(tables, &zone.name) {
        Some(Refusal::ZoneExists)
    } else if tables.len_zones() as u64 >= ZONE_LIMIT {
        Some(Refusal::TooMany { count: ZONE_LIMIT })
    } else {
        None
    }
}

/// Deletes the zone of this name, which nothing refuses. The moment is in ms since 1970-01-01T00:00:00Z.
pub fn delete_zone(tables: &mut Tables, moment: i64, name: &Text) -> Reply
    requires { delete_zone_refusal tables.old.tables name.now ≡ None }
    ensures { delete_zone tables.old.tables moment name.now ≡ accepted tables.new.tables result }
{
    let removed = tables.remove_zone(name);
    drop(removed);
    tables.set_last_moment(moment);
    Reply::Done
}

/// Why the zone isn't deleted, if it isn't.
#[tactic(auto, unfolding(qz_model::specs::Calendars::delete_zone_refusal))]
pub fn delete_zone_refusal(tables: &Tables, name: &Text) -> Option<Refusal>
    requires valid { ∥ TablesValid tables.now.tables ∥₁ }
    ensures { result ≡ delete_zone_refusal tables.now.tables name.now }
{
    if tables.get_zone(name).is_none() {
        return Some(Refusal::UnknownZone);
    }
    use_refusal(zone_uses(tables, name))
}

#[tactic(auto, using(crate::proofs::Counting::few_uses), unfolding(qz_model::specs::Calendars::zone_uses))]
fn zone_uses(tables: &Tables, name: &Text) -> u64
    requires valid { ∥ TablesValid tables.now.tables ∥₁ }
    ensures { result ≡ zone_uses tables.now.tables name.now }
{
    triggers_in_zone(tables, name) + calendars_in_zone(tables, name)
}
