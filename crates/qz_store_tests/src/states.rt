//! The state store below the program: rows that were renewed before they are forgotten, and the first node that is late.
ghost use Rattle.std.specs.Prelude.{IsTrue};
ghost use Rattle.qz_types.specs.Rows.{is_node};

use crate::snapshots::new_disk;
use qz_checkin::{StateStore, SubmitError};
use qz_disk::Disk;
use qz_journal::STATES;
use qz_types::{Refusal, Text};
use std::alloc::Global;

/// What came of a transaction.
#[derive(Clone, Copy, PartialEq)]
enum Came {
    Accepted,
    Unknown,
    Renewed(i64),
    Other,
}

fn outcome(answer: Result<(), SubmitError>) -> Came {
    let came = match &answer {
        Ok(()) => Came::Accepted,
        Err(SubmitError::Refused(Refusal::UnknownNode)) => Came::Unknown,
        Err(SubmitError::Refused(Refusal::Renewed { last })) => Came::Renewed(*last),
        Err(_) => Came::Other,
    };
    drop(answer);
    came
}

// A check-in with an interval of 15 seconds.
fn checks_in<D: Disk>(alloc: Global, store: &mut StateStore<D>, at: i64, name: &str) -> Came
    requires { IsTrue (is_node name.now) }
{
    match Text::from_str(alloc, name) {
        Ok(node) => outcome(store.check_in(at, 0, &node, 15000)),
        Err(_) => Came::Other,
    }
}

fn forgets<D: Disk>(
    alloc: Global,
    store: &mut StateStore<D>,
    at: i64,
    name: &str,
    last: i64,
) -> Came
    requires { IsTrue (is_node name.now) }
{
    match Text::from_str(alloc, name) {
        Ok(node) => outcome(store.forget(at, 0, &node, last)),
        Err(_) => Came::Other,
    }
}

// The place of the first late row.
fn late_place<D: Disk>(
    alloc: Global,
    store: &StateStore<D>,
    at: i64,
    own: &str,
) -> Option<Option<u32>> {
    let own = Text::from_str(alloc, own).ok()?;
    Some(store.late_place(at, &own))
}

// The last check-in of that row, and until when it wasn't late.
fn failed<D: Disk>(
    alloc: Global,
    store: &StateStore<D>,
    at: i64,
    own: &str,
) -> Option<Option<(i64, i64)>> {
    let own = Text::from_str(alloc, own).ok()?;
    match store.failed(at, &own) {
        Ok(Some(evidence)) => Some(Some((evidence.last, evidence.until))),
        Ok(None) => Some(None),
        Err(_) => None,
    }
}

fn mounts<D: Disk>(alloc: Global, disk: D) -> Option<StateStore<D>> {
    match StateStore::mount(alloc, disk) {
        Ok(store) => Some(store),
        Err(error) => {
            drop(error);
            None
        }
    }
}

// A row that was renewed isn't forgotten by what was read before.
fn is_renewed(alloc: Global) -> Option<bool> {
    let disk = new_disk(alloc, STATES)?;
    let mut store = mounts(alloc, disk)?;
    let is_right = checks_in(alloc, &mut store, 1000, "A") == Came::Accepted
        && checks_in(alloc, &mut store, 2000, "A") == Came::Accepted
        && forgets(alloc, &mut store, 2000, "A", 1000) == Came::Renewed(2000)
        && forgets(alloc, &mut store, 2500, "A", 2000) == Came::Accepted
        && forgets(alloc, &mut store, 2500, "A", 2000) == Came::Unknown
        && store.history_len() == 3
        && store.last_moment() == 2500
        && store.rows().is_empty();
    drop(store);
    Some(is_right)
}

#[test]
fn a_row_is_renewed_and_forgotten(rt: HostRuntime) {
    assert!(rt; is_renewed(rt.alloc()) == Some(true));
}

// At 22500 B may be a moment late still. A node without a row finds nobody late.
fn is_late(alloc: Global) -> Option<bool> {
    let disk = new_disk(alloc, STATES)?;
    let mut store = mounts(alloc, disk)?;
    let is_right = checks_in(alloc, &mut store, 0, "B") == Came::Accepted
        && checks_in(alloc, &mut store, 22500, "A") == Came::Accepted
        && late_place(alloc, &store, 22500, "A") == Some(None)
        && failed(alloc, &store, 22500, "A") == Some(None)
        && late_place(alloc, &store, 22501, "A") == Some(Some(1))
        && failed(alloc, &store, 22501, "A") == Some(Some((0, 22500)))
        && late_place(alloc, &store, 22501, "C") == Some(None);
    drop(store);
    Some(is_right)
}

#[test]
fn a_node_is_late_after_its_interval_and_more(rt: HostRuntime) {
    assert!(rt; is_late(rt.alloc()) == Some(true));
}
