//! The looks at a board while nodes work.
ghost use Rattle.qz_board_looks.specs.Watches.{GoesOn};

use qz_board::Subject;
use qz_board_looks::Watch;
use qz_rounds::SharedClock;
use std::sync::Wait;
use std::sync::atomic::{AtomicBool, Ordering};

/// How long the thread rests at most before it sees that the nodes have ended, in ms.
const LONGEST_PAUSE: i64 = 1000;

// When to look next, where so many looks are left: they are spread over the time that is left.
fn next_look(at: i64, until: i64, left: u32) -> i64 {
    let millis = until.saturating_sub(at).max(0);
    at.saturating_add(millis / (i64::from(left) + 1))
}

// How long to rest at once, in ms.
fn pause_of(end: i64, at: i64) -> u32 {
    let millis = end.saturating_sub(at).clamp(1, LONGEST_PAUSE);
    u32::try_from(millis).unwrap_or(1000)
}

// Rests until a moment, or until the nodes have ended.
fn rest_until<R: Wait, C: SharedClock>(rt: &R, clock: &C, end: i64, ended: &AtomicBool) {
    'rests: for _ in rt.forever() {
        let at = clock.now();
        if at >= end || ended.load(Ordering::SeqCst) {
            return;
        }
        clock.rest(rt, pause_of(end, at));
    }
    unreachable!()
}

/// Makes the looks that are left, evenly until a moment, in ms since 1970-01-01T00:00:00Z. It stops where the nodes have ended.
pub(super) fn watch<K: Subject, R: Wait, C: SharedClock>(
    rt: &R,
    clock: &C,
    until: i64,
    ended: &AtomicBool,
    watch: Watch<K>,
) -> Watch<K>
    ensures { GoesOn watch result }
{
    let mut watch = watch;
    'looks: for _ in rt.forever() {
        if watch.left() == 0 || ended.load(Ordering::SeqCst) {
            return watch;
        }
        rest_until(
            rt,
            clock,
            next_look(clock.now(), until, watch.left()),
            ended,
        );
        watch.look();
    }
    unreachable!()
}
