//! The rows of the tests. There is no row where a name is past its limits.
ghost use Rattle.std.specs.Prelude.{◌≡◌, IsTrue, IfOk, IfSome, option_copied};
ghost use Rattle.qz_civil.specs.Timings.{is_name, is_timing};
ghost use Rattle.qz_types.specs.Rows.{is_node, is_key, is_calendar, is_trigger_spec};

use qz_civil::{Zone, beside};
use qz_types::{
    CalendarKind, CalendarRow, FiredRow, FiredState, JobRow, Key, Kind, MemberRow, NAME_LIMIT,
    NODE_LIMIT, Text, Timing, TriggerRow, TriggerSpec, TriggerState, Unit, ZoneRow,
};
use std::alloc::{AllocError, Global};

/// A trigger: its group, its name, its job, its calendar, the zone of its timing, its next time and its state.
#[derive(Clone, Copy)]
pub(super) struct GivenTrigger {
    pub group: &'static str,
    pub name: &'static str,
    pub job: &'static str,
    pub calendar: Option<&'static str>,
    pub zone: &'static str,
    pub next: Option<i64>,
    pub state: TriggerState,
}

/// A fired row: its entry number, its member, its trigger and job, its state, for when, since when, and its flag.
#[derive(Clone, Copy)]
pub(super) struct GivenFired {
    pub entry: u64,
    pub node: &'static str,
    pub epoch: u64,
    pub trigger: &'static str,
    pub job: &'static str,
    pub state: FiredState,
    pub scheduled: i64,
    pub fired: Option<i64>,
    pub no_concurrent: bool,
}

fn is_name(text: &str) -> bool
    ensures { result ≡ is_name text.now }
{
    0 < text.len() && text.len() as u64 <= NAME_LIMIT
}

fn is_node(text: &str) -> bool
    ensures { result ≡ is_node text.now }
{
    0 < text.len() && text.len() as u64 <= NODE_LIMIT
}

/// The key of a job, or of a trigger of a client.
pub(super) fn key(alloc: Global, name: &str) -> Result<Key, AllocError>
    ensures { IfOk result (λ key. is_key key ≡ is_name name.now) }
{
    Key::new(alloc, "G", name)
}

pub(super) fn job(
    alloc: Global,
    name: &str,
    no_concurrent: bool,
) -> Result<Option<JobRow>, AllocError> {
    if !is_name(name) {
        return Ok(None);
    }
    let key = key(alloc, name)?;
    let (key, class) = beside(key, Text::from_str(alloc, "C"))?;
    Ok(Some(JobRow {
        key,
        class,
        durable: true,
        no_concurrent,
        requests_recovery: false,
        payload: Text::new(alloc),
    }))
}

fn is_calendar(name: Option<&str>) -> bool
    ensures { result ≡ is_calendar (option_copied name.entry) }
{
    match name {
        None => true,
        Some(name) => is_name(name),
    }
}

fn named(alloc: Global, name: Option<&str>) -> Result<Option<Text>, AllocError>
    ensures { IfOk result (λ text. text ≡ option_copied name.entry) }
{
    match name {
        None => Ok(None),
        Some(name) => Ok(Some(Text::from_str(alloc, name)?)),
    }
}

pub(super) fn calendar(
    alloc: Global,
    name: &str,
    base: Option<&str>,
    zone: &str,
) -> Result<Option<CalendarRow>, AllocError> {
    if !is_name(name) || !is_calendar(base) || !is_name(zone) {
        return Ok(None);
    }
    let name = Text::from_str(alloc, name)?;
    let (name, base) = beside(name, named(alloc, base))?;
    let ((name, base), zone) = beside((name, base), Text::from_str(alloc, zone))?;
    Ok(Some(CalendarRow {
        name,
        base,
        zone,
        kind: CalendarKind::Weekly { days: 1 },
    }))
}

pub(super) fn zone(alloc: Global, name: &str) -> Result<Option<ZoneRow>, AllocError> {
    if !is_name(name) {
        return Ok(None);
    }
    Ok(Some(ZoneRow {
        name: Text::from_str(alloc, name)?,
        zone: Zone::utc(),
    }))
}

pub(super) fn member(
    alloc: Global,
    node: &str,
    epoch: u64,
) -> Result<Option<MemberRow>, AllocError> {
    if !is_node(node) {
        return Ok(None);
    }
    Ok(Some(MemberRow {
        node: Text::from_str(alloc, node)?,
        epoch,
    }))
}

fn daily(alloc: Global, zone: &str) -> Result<Timing, AllocError>
    requires { IsTrue (is_name zone.now) }
    ensures { IfOk result (λ timing. IsTrue (is_timing timing)) }
{
    Ok(Timing {
        kind: Kind::Interval {
            unit: Unit::Day,
            every: 1,
            zone: Text::from_str(alloc, zone)?,
            preserve: false,
            skip: false,
        },
        misfire: 0,
        start: 0,
        end: None,
    })
}

fn spec(alloc: Global, given: &GivenTrigger) -> Result<Option<TriggerSpec>, AllocError>
    ensures { IfOk result (λ spec. IfSome spec (λ s. IsTrue (is_trigger_spec s))) }
{
    if !is_name(given.group) || !is_name(given.name) || !is_name(given.job) {
        return Ok(None);
    }
    if !is_calendar(given.calendar) || !is_name(given.zone) {
        return Ok(None);
    }
    let own = Key::new(alloc, given.group, given.name)?;
    let (own, job) = beside(own, key(alloc, given.job))?;
    let ((own, job), calendar) = beside((own, job), named(alloc, given.calendar))?;
    let (((own, job), calendar), timing) = beside(
        ((own, job), calendar),
        daily(alloc, given.zone),
    )?;
    Ok(Some(TriggerSpec {
        key: own,
        job,
        priority: 5,
        calendar,
        timing,
    }))
}

pub(super) fn trigger(
    alloc: Global,
    given: &GivenTrigger,
) -> Result<Option<TriggerRow>, AllocError> {
    match spec(alloc, given)? {
        None => Ok(None),
        Some(spec) => Ok(Some(TriggerRow {
            spec,
            next: given.next,
            prev: None,
            times: 0,
            state: given.state,
        })),
    }
}

pub(super) fn fired(alloc: Global, given: &GivenFired) -> Result<Option<FiredRow>, AllocError> {
    if !is_name(given.trigger) || !is_name(given.job) || !is_node(given.node) {
        return Ok(None);
    }
    let own = key(alloc, given.trigger)?;
    let (own, job) = beside(own, key(alloc, given.job))?;
    let ((own, job), node) = beside((own, job), Text::from_str(alloc, given.node))?;
    Ok(Some(FiredRow {
        entry: given.entry,
        node,
        epoch: given.epoch,
        trigger: own,
        job,
        priority: 5,
        state: given.state,
        scheduled: given.scheduled,
        fired: given.fired,
        no_concurrent: given.no_concurrent,
        requests_recovery: false,
    }))
}
