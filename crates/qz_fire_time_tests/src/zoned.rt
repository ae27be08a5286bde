//! Tables of tests with the loops over them, and what they give: zones, and moments, which a call takes only where they are in range.
ghost use Rattle.std.specs.Prelude.{◌≡◌, negsuc};
ghost use Rattle.qz_civil.specs.declared.limits.TheConstants.{LAST};
ghost use Rattle.qz_civil.specs.Timings.{is_within};

use qz_civil::{LAST, List, Stretch, Times, Zone};
use std::alloc::{AllocError, Global};
use std::fmt::Debug;
use std::process::Abort;
use std::test::Fail;

/// A row of a table.
pub trait Row: Debug {
    /// Whether what the row says is so in the zone.
    fn holds(&self, zone: &Zone) -> bool;
}

/// When a stretch begins, and its offset.
pub type Begin = (i64, i32);

pub fn list_of(alloc: Global, stretches: &[Begin]) -> Result<List<Stretch>, AllocError> {
    let mut list = List::new(alloc);
    for &(from, offset) in stretches.iter() {
        list.push(Stretch { from, offset })?;
    }
    Ok(list)
}

pub fn zone_of(alloc: Global, stretches: &[Begin]) -> Result<Zone, Fail> {
    Ok(Zone::table(list_of(alloc, stretches)?)?)
}

/// Whether `next` may be asked what comes after it.
fn is_moment(after: i64) -> bool
    ensures { result ≡ is_within (negsuc 0) LAST after }
{
    -1 <= after && after <= LAST
}

/// Whether the trigger is next at `wanted` after a moment.
pub fn is_next<T: Times>(trigger: &T, after: i64, wanted: Option<i64>) -> bool {
    is_moment(after) && trigger.next(after) == wanted
}

/// The rows hold in the zone.
pub fn check<R: Row>(rt: &impl Abort, zone: &Zone, rows: &[R]) {
    for row in rows.iter() {
        assert!(rt; row.holds(zone), "at {row:?}");
    }
}

/// The rows of each table hold in the zone of the stretches beside them.
pub fn check_in_zones<R: Row>(
    rt: &impl Abort,
    alloc: Global,
    tables: &[(&[Begin], &[R])],
) -> Result<(), Fail> {
    for (stretches, rows) in tables.iter() {
        check(rt, &zone_of(alloc, stretches)?, rows);
    }
    Ok(())
}
