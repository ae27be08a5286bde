//! Two seats of one thread.
use crate::jobs::{Added, Jobs};
use qz_shared::{close_row, open_row, submit};
use qz_types::{Refusal, SubmitError};
use std::test::Fail;

#[test]
fn what_one_seat_did_another_is_told_of(rt: HostRuntime) -> Result<(), Fail> {
    let jobs = Jobs {
        entries: Vec::new(rt.alloc()),
        gate: 16,
        closed: false,
    };
    let Ok((row, seat)) = open_row(rt.alloc(), jobs) else {
        panic!(rt; "no memory")
    };
    let (mut one, mut two) = row.split(seat);
    let first = Added {
        seat: one.number,
        job: 0,
    };
    let same = Added {
        seat: two.number,
        job: 0,
    };
    let next = Added {
        seat: two.number,
        job: 1,
    };
    let added = matches!(submit(&rt, &row, &mut one, first), Ok(()));
    let note = row.tell(&mut one);
    row.learn(&mut two, note);
    let refused = matches!(
        submit(&rt, &row, &mut two, same),
        Err(SubmitError::Refused(Refusal::JobExists))
    );
    let further = matches!(submit(&rt, &row, &mut two, next), Ok(()));
    let seat = row.join(two, one);
    let jobs = close_row(row, seat);
    assert!(rt; added && refused && further);
    assert_eq!(rt; jobs.entries.as_slice(), [first, next].as_slice());
    assert_eq!(rt; jobs.gate, 42);
    Ok(())
}
