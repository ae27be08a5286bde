//! The top call.
ghost use Rattle.std.specs.Prelude.{Ok, map};
ghost use Rattle.qz_io.specs.Around.{outside};
ghost use Rattle.qz_top.specs.Asked.{DidAsAsked, UsesJobs};
ghost use Rattle.qz_top.specs.Causes.{counts, HasCause};
ghost use Rattle.qz_top.specs.Calls.{trail_of};
ghost use Rattle.qz_top.specs.Completing.{IsComplete};
ghost use Rattle.qz_top.specs.HandingOn.{HandsOnWritten};
ghost use Rattle.qz_top.specs.HeadlineByWords.{HeadlineOf};
ghost use Rattle.qz_top.specs.Schedules.{FollowSchedules};
ghost use Rattle.qz_top.specs.Statuses.{Reported};
ghost use Rattle.qz_words.specs.Wishes.{wish_of, IsWish};

use crate::ended::{Ended, ran_no_script};
use crate::following::follow;
use crate::gen_on_disk::{Workload, gen_on_disk};
use crate::in_memory::own_script;
use crate::list_on_disk::list_on_disk;
use crate::load_on_disk::load_on_disk;
use crate::making::make_stores;
use crate::migrating::migrate;
use crate::on_disk::script_on_disk;
use crate::run_on_disk::run_on_disk;
use crate::times::tell_times;
use crate::{Status, report};
use qz_disk::Disk;
use qz_io::{Clock, Sink, Source};
use qz_node::{Job, Jobs};
use qz_run::Plan;
use qz_standby::Form;
use qz_times::Query;
use qz_types::Text;
use qz_words::{Wish, read_words};
use std::alloc::Global;

/// Does what the words of the command line ask for, and writes a line on `err` where that didn't end well.
///
/// - Without words it runs the lines of `input` as a script on new stores in memory, and writes a reply line a step to
///   `out`. The two disks aren't touched.
/// - `init` makes the stores that aren't there, and writes `created`.
/// - `script` opens both stores and runs the lines of `input` on them.
/// - `load` opens both stores, does the commands of the document on `input`, and writes a reply line for each.
/// - `list` opens both stores, and writes a line for each row of theirs.
/// - `migrate` opens the trigger store, takes it from version 1 to version 2 with one transaction, and writes `migrated`; or it
///   writes `current` where the store needs none. The other disk isn't touched. `run` and `gen` do nothing on a store of version 1
///   that wasn't upgraded.
/// - `follow` reads the bytes of a trigger store from `input`, makes both stores of them where there are none, and writes `followed`
///   and the number of entries. `compact` does the same, and writes `compacted` and that number: its trigger store begins with a
///   snapshot of the tables that the entries leave, and has none of them.
/// - `run NODES FROM UNTIL [BUDGET]` opens both stores, lets so many nodes work on them with the jobs, on a clock that begins at
///   FROM, until nothing is due up to UNTIL, and writes a line for each entry that they added and one that sums them up.
/// - `gen SEED JOBS DAYS` opens both stores. Where the trigger store's history is empty, it adds jobs and triggers that SEED gives,
///   lets 4 nodes work on them for DAYS days from 2024-01-01T00:00:00Z on, and writes the line that sums up all of it.
/// - `times AFTER COUNT` writes for each trigger of `input` its first fire times. The two disks aren't touched.
///
/// What was written is handed on at every end. The disks come back in every case.
pub fn command<S: Source, K: Sink, E: Sink, D: Disk, C: Clock>(
    alloc: Global,
    words: &[Text],
    input: &mut S,
    out: &mut K,
    err: &mut E,
    triggers: D,
    states: D,
    clock: &mut C,
    jobs: &mut Jobs,
) -> Ended<D>
    // What was done is what the words ask for: each of the cases is a definition of its own.
    ensures done { DidAsAsked (wish_of words.now) (map means jobs.old.items) (map means jobs.new.items) triggers states result (outside S.Source K.Sink C.Clock input.old out.old clock.old) (outside S.Source K.Sink C.Clock input.new out.new clock.new) }
    // The headline: a plain scheduler's replies along one history of each store, which no crash breaks.
    ensures headline { HeadlineOf (wish_of words.now) triggers states result (outside S.Source K.Sink C.Clock input.old out.old clock.old) (outside S.Source K.Sink C.Clock input.new out.new clock.new) }
    // Only `run` and `gen` call the jobs.
    ensures jobs { UsesJobs (wish_of words.now) (map means jobs.old.items) (map means jobs.new.items) }
    // Bad words are answered only where the words are refused, and a fault only where the object's count of faults rose.
    ensures cause { HasCause result.status (wish_of words.now) (counts S.Source K.Sink D.Disk input.old out.old triggers states) (counts S.Source K.Sink D.Disk input.new out.new result.triggers result.states) }
    // Where nothing failed, the input is right and the stores hold whole lists, the call came to its end, or its memory, room or budget did.
    ensures complete { IsComplete D.Disk (wish_of words.now) result.status (counts S.Source K.Sink D.Disk input.old out.old triggers states) (counts S.Source K.Sink D.Disk input.new out.new result.triggers result.states) (S.left input.old) triggers states }
    // In each state that it showed, triggers that weren't disturbed have fired for the first times of their schedules.
    ensures schedules { FollowSchedules (trail_of result.trail) }
    // However the call ended, all that it wrote on `out` was handed on, or `out` failed.
    ensures handed { HandsOnWritten K.Sink out.old out.new }
    // The line on `err` was written and handed on, or `err` failed.
    ensures reported { Reported E.Sink result.status err.old err.new }
{
    let ended = work(alloc, words, input, out, triggers, states, clock, jobs);
    report(ended.status, err);
    ended
}

// The same, without the line on `err`.
fn work<S: Source, K: Sink, D: Disk, C: Clock>(
    alloc: Global,
    words: &[Text],
    input: &mut S,
    out: &mut K,
    triggers: D,
    states: D,
    clock: &mut C,
    jobs: &mut Jobs,
) -> Ended<D>
    ensures done { DidAsAsked (wish_of words.now) (map means jobs.old.items) (map means jobs.new.items) triggers states result (outside S.Source K.Sink C.Clock input.old out.old clock.old) (outside S.Source K.Sink C.Clock input.new out.new clock.new) }
    ensures jobs { UsesJobs (wish_of words.now) (map means jobs.old.items) (map means jobs.new.items) }
    ensures cause { HasCause result.status (wish_of words.now) (counts S.Source K.Sink D.Disk input.old out.old triggers states) (counts S.Source K.Sink D.Disk input.new out.new result.triggers result.states) }
    ensures handed { HandsOnWritten K.Sink out.old out.new }
{
    match read_words(words) {
        Ok(wish) => do_as_asked(alloc, wish, input, out, triggers, states, clock, jobs),
        Err(fault) => ran_no_script(alloc, Status::BadWords { fault }, triggers, states),
    }
}

// The same, for words that aren't refused.
fn do_as_asked<S: Source, K: Sink, D: Disk, C: Clock>(
    alloc: Global,
    wish: Wish,
    input: &mut S,
    out: &mut K,
    triggers: D,
    states: D,
    clock: &mut C,
    jobs: &mut Jobs,
) -> Ended<D>
    requires { IsWish wish }
    ensures done { DidAsAsked (Ok wish) (map means jobs.old.items) (map means jobs.new.items) triggers states result (outside S.Source K.Sink C.Clock input.old out.old clock.old) (outside S.Source K.Sink C.Clock input.new out.new clock.new) }
    ensures jobs { UsesJobs (Ok wish) (map means jobs.old.items) (map means jobs.new.items) }
    ensures cause { HasCause result.status (Ok wish) (counts S.Source K.Sink D.Disk input.old out.old triggers states) (counts S.Source K.Sink D.Disk input.new out.new result.triggers result.states) }
    ensures handed { HandsOnWritten K.Sink out.old out.new }
{
    match wish {
        Wish::Own => own_script(alloc, input, out, triggers, states, clock),
        Wish::Init => make_stores(alloc, out, triggers, states),
        Wish::Script => script_on_disk(alloc, input, out, triggers, states, clock),
        Wish::Times { after, count } => {
            tell_times(alloc, input, out, triggers, states, Query { after, count })
        }
        Wish::Load => load_on_disk(alloc, input, out, triggers, states, clock),
        Wish::List => list_on_disk(alloc, out, triggers, states),
        Wish::Migrate => migrate(alloc, out, triggers, states, clock),
        Wish::Follow => follow(alloc, Form::Entries, input, out, triggers, states),
        Wish::Compact => follow(alloc, Form::Snapshot, input, out, triggers, states),
        Wish::Run {
            nodes,
            from,
            until,
            budget,
        } => {
            let plan = Plan {
                nodes,
                from,
                until,
                budget,
            };
            run_on_disk(alloc, plan, out, triggers, states, jobs)
        }
        Wish::Gen {
            seed,
            jobs: count,
            days,
        } => {
            let workload = Workload {
                seed,
                jobs: count,
                days,
            };
            gen_on_disk(alloc, workload, out, triggers, states, jobs)
        }
    }
}
