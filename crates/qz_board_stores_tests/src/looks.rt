//! What a reader sees of a trigger store.
ghost use Rattle.std.specs.Prelude.{◌≡◌, ◌<◌, ◌^◌, length, false};
ghost use Rattle.qz_row_lock.specs.Seats.{IsOf, is_out};
ghost use Rattle.qz_trigger_store.specs.View.{view};

use crate::entries::{T0, acquire, add_job, add_trigger, complete, fire, join};
use qz_board::Glance;
use qz_board_lines::board_line;
use qz_board_stores::{BoardedRow, BoardedSeat, close_with_board, open_with_board};
use qz_disk::{Disk, MemDisk};
use qz_journal::{TRIGGERS, create};
use qz_shared::submit;
use qz_trigger_store::{Keep, TriggerStore};
use qz_types::Entry;
use std::alloc::{AllocError, Global};
use std::sync::Wait;
use std::test::Fail;

// A store of no entries.
fn new_store(alloc: Global) -> Option<TriggerStore<MemDisk>> {
    let mut disk = MemDisk::new(alloc);
    let made = create(&mut disk, TRIGGERS);
    if made.is_err() {
        return None;
    }
    TriggerStore::mount(alloc, disk, Keep::Tables).ok()
}

// Has the store do this. Whether it was accepted.
fn takes<D: Disk>(store: &mut TriggerStore<D>, entry: Result<Entry, AllocError>) -> bool {
    let Ok(entry) = entry else {
        return false;
    };
    store.submit(entry).is_ok()
}

// Has a new store do all that a job takes which is fired once. Whether it was accepted.
fn fires_once<D: Disk>(alloc: Global, store: &mut TriggerStore<D>) -> bool {
    takes(store, add_job(alloc, T0, 0))
        && takes(store, add_trigger(alloc, T0))
        && takes(store, join(alloc, T0))
        && takes(store, acquire(alloc, T0))
        && takes(store, fire(alloc, T0, 1))
        && takes(store, complete(alloc, T0, 1))
}

// What a reader of a board over this store sees first.
fn first_look<R: Wait, D: Disk>(rt: &R, alloc: Global, store: TriggerStore<D>) -> Option<Glance>
    requires { length (view store).history.entries < 2 ^ 62 }
{
    let Ok((row, seat, reader)) = open_with_board(rt, alloc, store) else {
        return None;
    };
    let mut reader = reader;
    let shown = reader.look();
    let (store, writer) = close_with_board(row, seat);
    writer.close(rt);
    drop(store.into_disk());
    Some(shown)
}

// Submits a job under the row. Whether it was accepted.
fn adds_job<R: Wait, D: Disk, H: Wait + Drop>(
    rt: &R,
    alloc: Global,
    row: &BoardedRow<D, H>,
    seat: &mut BoardedSeat<D, H>,
) -> bool
    requires of { IsOf row.now seat.old }
    requires home { is_out seat.old ≡ false }
    ensures of { IsOf row.now seat.new }
    ensures home { is_out seat.new ≡ false }
    ensures parts { seat.new.parts ≡ seat.old.parts }
{
    let Ok(entry) = add_job(alloc, T0, seat.number) else {
        return false;
    };
    submit(rt, row, seat, entry).is_ok()
}

// What a reader sees before a job is added to this store, and after that.
fn looks<R: Wait, D: Disk>(
    rt: &R,
    alloc: Global,
    store: TriggerStore<D>,
) -> Option<(Glance, Glance)>
    requires { length (view store).history.entries < 2 ^ 62 }
{
    let Ok((row, seat, reader)) = open_with_board(rt, alloc, store) else {
        return None;
    };
    let mut reader = reader;
    let mut seat = seat;
    let before = reader.look();
    let added = adds_job(rt, alloc, &row, &mut seat);
    let after = reader.look();
    let (store, writer) = close_with_board(row, seat);
    writer.close(rt);
    drop(store.into_disk());
    added.then_some((before, after))
}

#[test]
fn a_board_shows_what_was_done(rt: HostRuntime) -> Result<(), Fail> {
    let mut store = new_store(rt.alloc()).ok_or("no store")?;
    assert!(rt; fires_once(rt.alloc(), &mut store) && store.listed() == 6);
    let shown = first_look(&rt, rt.alloc(), store).ok_or("no memory")?;
    let line = board_line(rt.alloc(), &shown)?;
    assert_eq!(rt;
        line.as_str(),
        "board 6 executing 0 jobs 0 triggers 0 next none at 1704067200000\n"
    );
    Ok(())
}

// A submit posts before it gives the row back.
#[test]
fn a_look_shows_one_entry_more(rt: HostRuntime) -> Result<(), Fail> {
    let store = new_store(rt.alloc()).ok_or("no store")?;
    assert!(rt; store.listed() == 0);
    let (before, after) = looks(&rt, rt.alloc(), store).ok_or("no memory")?;
    assert_eq!(rt; (before.entries, before.jobs), (0, 0));
    assert_eq!(rt; (after.entries, after.jobs), (1, 1));
    Ok(())
}
