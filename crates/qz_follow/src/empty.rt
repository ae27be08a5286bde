//! Whether tables are those of a new store.
ghost use Rattle.std.specs.Prelude.{◌≡◌, ◌↔◌, IsTrue};
ghost use Rattle.qz_types.specs.Tables.{empty};
ghost use Rattle.qz_follow.specs.Kept.{HasNoPlans, HasNoStates, HasNewNumbers};

use qz_civil::{LAST, VERSION_ONE_LAST};
use qz_tables::Tables;
use qz_types::FIRST_THRESHOLD;

/// Whether these are the tables of a new store of this version, 1 or 2.
pub(crate) fn is_new(tables: &Tables, version: u8) -> bool
    ensures { IsTrue result ↔ (tables.now.tables ≡ empty version) }
{
    if !has_no_plans(tables) {
        return false;
    }
    if !has_no_states(tables) {
        return false;
    }
    has_new_numbers(tables, version)
}

// Whether there is no job, trigger, calendar or zone.
fn has_no_plans(tables: &Tables) -> bool
    ensures { IsTrue result ↔ HasNoPlans tables.now.tables }
{
    if tables.len_jobs() != 0 {
        return false;
    }
    if tables.len_triggers() != 0 {
        return false;
    }
    if tables.len_calendars() != 0 {
        return false;
    }
    tables.len_zones() == 0
}

// Whether there is no row of any other kind.
fn has_no_states(tables: &Tables) -> bool
    ensures { IsTrue result ↔ HasNoStates tables.now.tables }
{
    if tables.len_groups() != 0 {
        return false;
    }
    if tables.len_job_groups() != 0 {
        return false;
    }
    if tables.len_members() != 0 {
        return false;
    }
    tables.len_fired() == 0
}

// Whether the numbers are those of a new store of this version.
fn has_new_numbers(tables: &Tables, version: u8) -> bool
    ensures { IsTrue result ↔ HasNewNumbers version tables.now.tables }
{
    if tables.next_entry() != 1 {
        return false;
    }
    if tables.next_epoch() != 1 {
        return false;
    }
    if tables.threshold() != FIRST_THRESHOLD {
        return false;
    }
    if tables.last_moment() != 0 {
        return false;
    }
    tables.horizon() == horizon_of(version)
}

// How far the tables of a format version reach.
fn horizon_of(version: u8) -> i64
    ensures { result ≡ (empty version).horizon }
{
    if version == 1 { VERSION_ONE_LAST } else { LAST }
}
