//! The limits of rows, numbers and names of paused groups.
ghost use Rattle.std.specs.Prelude.{◌≡◌, ◌&&◌};
ghost use Rattle.std.specs.List.{list_all};
ghost use Rattle.qz_civil.specs.Timings.{is_name};
ghost use Rattle.qz_types.specs.Rows.{is_interval};
ghost use Rattle.qz_valid.specs.Limits.{is_horizon, is_moment, counts_fit, numbers_fit, names_fit};

use qz_tables::Tables;
use qz_types::{
    CALENDAR_LIMIT, FIRED_LIMIT, GROUP_LIMIT, INTERVAL_LIMIT, JOB_GROUP_LIMIT, JOB_LIMIT, LAST,
    MEMBER_LIMIT, NAME_LIMIT, NUMBER_LIMIT, TRIGGER_LIMIT, Text, VERSION_ONE_LAST, ZONE_LIMIT,
};

/// Whether the moment, in ms since 1970-01-01T00:00:00Z, is from 0 to the horizon.
pub fn is_moment(tables: &Tables, moment: i64) -> bool
    ensures { result ≡ is_moment tables.now.tables.horizon moment }
{
    0 <= moment && moment <= tables.horizon()
}

#[tactic(auto, unfolding(crate::specs::Limits::counts_fit))]
fn counts_fit(tables: &Tables) -> bool
    ensures { result ≡ counts_fit tables.now.tables }
{
    tables.len_jobs() as u64 <= JOB_LIMIT
        && tables.len_triggers() as u64 <= TRIGGER_LIMIT
        && tables.len_calendars() as u64 <= CALENDAR_LIMIT
        && tables.len_zones() as u64 <= ZONE_LIMIT
        && tables.len_groups() as u64 <= GROUP_LIMIT
        && tables.len_job_groups() as u64 <= JOB_GROUP_LIMIT
        && tables.len_members() as u64 <= MEMBER_LIMIT
        && tables.len_fired() as u64 <= FIRED_LIMIT
}

fn is_interval(ms: i64) -> bool
    ensures { result ≡ is_interval ms }
{
    1 <= ms && ms <= INTERVAL_LIMIT
}

fn is_horizon(horizon: i64) -> bool
    ensures { result ≡ is_horizon horizon }
{
    horizon == VERSION_ONE_LAST || horizon == LAST
}

#[tactic(auto, unfolding(crate::specs::Limits::numbers_fit))]
fn numbers_fit(tables: &Tables) -> bool
    ensures { result ≡ numbers_fit tables.now.tables }
{
    tables.next_entry() <= NUMBER_LIMIT
        && tables.next_epoch() <= NUMBER_LIMIT
        && is_interval(tables.threshold())
        && is_horizon(tables.horizon())
        && is_moment(tables, tables.last_moment())
}

fn is_name(name: &Text) -> bool
    ensures { result ≡ is_name name.now }
{
    let length = name.as_str().len() as u64;
    0 < length && length <= NAME_LIMIT
}

#[tactic(auto, using(crate::proofs::Walks::fails_at, crate::proofs::Walks::all_pass))]
fn groups_fit(tables: &Tables) -> bool
    ensures { result ≡ list_all is_name tables.now.tables.paused_groups }
{
    for place in 0..tables.len_groups() {
        let Some(group) = tables.nth_group(place) else {
            unreachable!()
        };
        if !is_name(group) {
            return false;
        }
    }
    true
}

#[tactic(auto, using(crate::proofs::Walks::fails_at, crate::proofs::Walks::all_pass))]
fn job_groups_fit(tables: &Tables) -> bool
    ensures { result ≡ list_all is_name tables.now.tables.paused_job_groups }
{
    for place in 0..tables.len_job_groups() {
        let Some(group) = tables.nth_job_group(place) else {
            unreachable!()
        };
        if !is_name(group) {
            return false;
        }
    }
    true
}

#[tactic(auto, unfolding(crate::specs::Limits::names_fit))]
fn names_fit(tables: &Tables) -> bool
    ensures { result ≡ names_fit tables.now.tables }
{
    groups_fit(tables) && job_groups_fit(tables)
}

/// Whether no table has more rows than it may, and each number and each name of a paused group is within its limits.
pub fn are_within_limits(tables: &Tables) -> bool
    ensures { result ≡ (counts_fit tables.now.tables && (numbers_fit tables.now.tables && names_fit tables.now.tables)) }
{
    counts_fit(tables) && numbers_fit(tables) && names_fit(tables)
}
