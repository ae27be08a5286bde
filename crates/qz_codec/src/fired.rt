//! Fired rows, both ways.
ghost use Rattle.std.specs.Prelude.{◌≡◌, ◌<◌, ◌^◌, ◌++◌, ◌∷◌, IfOk, OnOk, IfSome, IsTrue, FitsSigned, ℕ};
ghost use Rattle.std.specs.Int.{w32, w64};
ghost use Rattle.qz_types.specs.Rows.{is_key, is_node};
ghost use Rattle.qz_types.specs.declared.limits.TheConstants.{NODE_LIMIT};
ghost use Rattle.qz_values.specs.Fields.{number, integer, flag, text, optional, IsText};
ghost use Rattle.qz_codec.specs.Layout.{key};
ghost use Rattle.qz_codec.specs.Values.{IsKey};
ghost use Rattle.qz_values.specs.Reading.{Gives};
ghost use Rattle.qz_codec.specs.Rows.{fired_state_place, fired, IsFired, fired_state_at, fired_at, progress_at};

use crate::keys::{make_keys, names_of, put_key};
use crate::members::{node_of, put_node};
use crate::records::{Recorded, Row};
use qz_civil::beside;
use qz_types::{FiredRow, FiredState, Key, Text};
use qz_values::{
    Fault, Version, bool_at, i32_at, i64_at, put_bool, put_i32, put_i64, put_time, put_u8, put_u64,
    time_of, u8_at, u64_at,
};
use std::alloc::{AllocError, Global};

#[tactic(auto, unfolding(crate::specs::Rows::fired_state_at))]
fn fired_state_of(bytes: &[u8]) -> Result<(FiredState, &[u8]), Fault>
    ensures { Gives (λ x. (x.0, x.1.now)) result (fired_state_at bytes.now) }
{
    let (place, rest) = u8_at(bytes)?;
    match place {
        0 => Ok((FiredState::Acquired, rest)),
        1 => Ok((FiredState::Executing, rest)),
        _ => Err(Fault::at(bytes)),
    }
}

/// Memory for the names of a fired row.
fn make_names(
    alloc: Global,
    node: &str,
    trigger: (&str, &str),
    job: (&str, &str),
) -> Result<(Text, (Key, Key)), AllocError>
    ensures node { IfOk result (λ made. made.0 ≡ node.now) }
    ensures trigger { IfOk result (λ made. made.1.0 ≡ record { group = trigger.entry.0.now; name = trigger.entry.1.now }) }
    ensures job { IfOk result (λ made. made.1.1 ≡ record { group = job.entry.0.now; name = job.entry.1.now }) }
{
    let node = Text::from_str(alloc, node)?;
    beside(node, make_keys(alloc, trigger, job))
}

/// A fired row, of which what stands before its priority was read.
#[tactic(auto, unfolding(crate::specs::Rows::progress_at))]
fn progress_of<'a>(
    alloc: Global,
    entry: u64,
    node: &str,
    epoch: u64,
    trigger: (&str, &str),
    job: (&str, &str),
    bytes: &'a [u8],
) -> Result<(FiredRow, &'a [u8]), Fault>
    requires node { IsTrue (is_node node.now) }
    requires trigger { IsTrue (is_key (record { group = trigger.0.now; name = trigger.1.now })) }
    requires job { IsTrue (is_key (record { group = job.0.now; name = job.1.now })) }
    ensures { Gives (λ x. (x.0, x.1.now)) result (progress_at entry node.now epoch (record { group = trigger.entry.0.now; name = trigger.entry.1.now }) (record { group = job.entry.0.now; name = job.entry.1.now }) bytes.now) }
{
    let (priority, rest) = i32_at(bytes)?;
    let (state, rest) = fired_state_of(rest)?;
    let (scheduled, rest) = i64_at(rest)?;
    let (fired, rest) = time_of(rest)?;
    let (no_concurrent, rest) = bool_at(rest)?;
    let (requests_recovery, rest) = bool_at(rest)?;
    let (node, (trigger, job)) = make_names(alloc, node, trigger, job)?;
    let row = FiredRow {
        entry,
        node,
        epoch,
        trigger,
        job,
        priority,
        state,
        scheduled,
        fired,
        no_concurrent,
        requests_recovery,
    };
    Ok((row, rest))
}

#[tactic(auto, unfolding(crate::specs::Rows::fired_at))]
fn fired_of(alloc: Global, bytes: &[u8]) -> Result<(FiredRow, &[u8]), Fault>
    ensures { Gives (λ x. (x.0, x.1.now)) result (fired_at bytes.now) }
{
    let (entry, rest) = u64_at(bytes)?;
    let (node, rest) = node_of(rest)?;
    let (epoch, rest) = u64_at(rest)?;
    let (trigger, rest) = names_of(rest)?;
    let (job, rest) = names_of(rest)?;
    progress_of(alloc, entry, node, epoch, trigger, job, rest)
}

/// The place of the state among all states.
fn place_of_state(state: FiredState) -> u8
    ensures { result ≡ fired_state_place state }
{
    match state {
        FiredState::Acquired => 0,
        FiredState::Executing => 1,
    }
}

/// What is held, and by whom.
#[tactic(auto, using(qz_values::proofs::Signs::signs))]
fn put_hold(out: &mut Vec<u8>, row: &FiredRow) -> Result<(), AllocError>
    ensures bytes { OnOk result (out.new.items ≡ out.old.items ++ (number w64 row.now.entry ++ (text row.now.node ++ (number w64 row.now.epoch ++ (key row.now.trigger ++ key row.now.job))))) }
    ensures valid { OnOk result ((row.now.entry < 2 ^ 64) × IsText 1 NODE_LIMIT row.now.node × (row.now.epoch < 2 ^ 64) × IsKey row.now.trigger × IsKey row.now.job) }
{
    put_u64(out, row.entry)?;
    put_node(out, &row.node)?;
    put_u64(out, row.epoch)?;
    put_key(out, &row.trigger)?;
    put_key(out, &row.job)
}

/// How far it is, and what of the job holds for it.
#[tactic(auto, using(qz_values::proofs::Signs::signs))]
fn put_progress(out: &mut Vec<u8>, row: &FiredRow) -> Result<(), AllocError>
    ensures bytes { OnOk result (out.new.items ≡ out.old.items ++ (integer w32 row.now.priority ++ (fired_state_place row.now.state ∷ (integer w64 row.now.scheduled ++ (optional (integer w64) row.now.fired ++ (flag row.now.no_concurrent ++ flag row.now.requests_recovery)))))) }
    ensures valid { OnOk result (FitsSigned w32 row.now.priority × FitsSigned w64 row.now.scheduled × IfSome row.now.fired (FitsSigned w64)) }
{
    put_i32(out, row.priority)?;
    put_u8(out, place_of_state(row.state))?;
    put_i64(out, row.scheduled)?;
    put_time(out, &row.fired)?;
    put_bool(out, row.no_concurrent)?;
    put_bool(out, row.requests_recovery)
}

#[tactic(auto, unfolding(crate::specs::Rows::fired), using(qz_values::proofs::Signs::signs))]
fn put_fired(out: &mut Vec<u8>, row: &FiredRow) -> Result<(), AllocError>
    ensures bytes { OnOk result (out.new.items ≡ out.old.items ++ fired row.now) }
    ensures valid { OnOk result (IsFired row.now) }
{
    put_hold(out, row)?;
    put_progress(out, row)
}

impl Recorded for FiredRow {
    ghost can_put = { λ row. Unit {0} };

    ghost fields = { λ version. fired };

    ghost has_record = { λ version. IsFired };

    ghost fields_at = { λ version. fired_at };

    ghost most = { 970 };

    fn put_fields(&self, out: &mut Vec<u8>) -> Result<(), AllocError> {
        put_fired(out, self)
    }

    fn fields_of(
        alloc: Global,
        _version: Version,
        bytes: &[u8],
    ) -> Result<(FiredRow, &[u8]), Fault> {
        fired_of(alloc, bytes)
    }

    fn is_format() {}
}

impl Row for FiredRow {}
