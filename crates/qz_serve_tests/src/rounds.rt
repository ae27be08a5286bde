//! When the threads of a node rest, by a clock that goes on at their rests alone.
use crate::calls::{served, stored};
use crate::clocks::RestsClock;
use qz_checkin::StateStore;
use qz_disk::MemDisk;
use qz_rounds::check_rounds;
use qz_serve::OpenGate;
use qz_shared::{close_row, is_short, open_row};
use qz_shared_stores::{SharedStates, SharedTriggers};
use qz_top::Status;
use qz_trigger_store::{Keep, TriggerStore};
use qz_types::{MemberRow, Text};
use std::alloc::{AllocError, Global};
use std::rt::HostRuntime;
use std::sync::Wait;
use std::test::Fail;

// Both stores without entries.
fn new_stores(alloc: Global) -> Option<(SharedTriggers<MemDisk>, SharedStates<MemDisk>)> {
    let Ok(triggers) = TriggerStore::create(alloc, MemDisk::new(alloc), 2, Keep::Tables) else {
        return None;
    };
    match StateStore::create(alloc, MemDisk::new(alloc)) {
        Ok(states) => Some((
            SharedTriggers { store: triggers },
            SharedStates { store: states },
        )),
        Err(error) => {
            drop((triggers, error));
            None
        }
    }
}

fn member(alloc: Global) -> Result<MemberRow, AllocError> {
    let node = Text::from_str(alloc, "A")?;
    Ok(MemberRow { node, epoch: 1 })
}

// How many check-ins a thread makes on new stores until this moment.
#[tactic(auto, using(qz_rounds::proofs::Lasting::adds_none))]
fn check_ins<R: Wait>(rt: &R, alloc: Global, clock: &RestsClock, until: i64) -> Option<u64> {
    let me = member(alloc).ok()?;
    let (triggers, states) = new_stores(alloc)?;
    if !is_short(&triggers) || !is_short(&states) {
        drop((triggers, states));
        return None;
    }
    let Ok((row, mut seat)) = open_row(alloc, triggers) else {
        drop(states);
        return None;
    };
    let Ok((state_row, mut state)) = open_row(alloc, states) else {
        drop((row, seat));
        return None;
    };
    let ended = check_rounds(
        rt, &row, &state_row, clock, until, &me, &mut seat, &mut state,
    );
    let triggers = close_row(row, seat);
    let states = close_row(state_row, state);
    let count = states.store.history_len();
    drop((triggers, states));
    if ended.is_ok() { Some(count) } else { None }
}

// Rounds at 0, 8000, 16000 and 24000 ms, since a reading comes each second, and the last one at the end.
#[test]
fn a_thread_rests_between_its_rounds(rt: HostRuntime) -> Result<(), Fail> {
    let clock = RestsClock::new();
    let count = check_ins(&rt, rt.alloc(), &clock, 30_000);
    assert_eq!(rt;
        (count, clock.rests(), clock.longest()),
        (Some(5), 30, 1000)
    );
    Ok(())
}

// The two threads of a node without work, and then `main`: what they write doesn't grow with the time.
#[test]
fn an_idle_node_writes_nothing(rt: HostRuntime) -> Result<(), Fail> {
    let disks = stored(rt.alloc(), "").ok_or("no stores")?;
    let clock = RestsClock::new();
    let words = ["serve", "1", "60000"];
    let told = served(&rt, rt.alloc(), &words, disks, &clock, &OpenGate).ok_or("no memory")?;
    let few = told.text().split('\n').count() < 20;
    assert!(rt; told.status == Status::Ok && few, "{}", told.text());
    Ok(())
}
