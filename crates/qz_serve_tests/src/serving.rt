//! Nodes in threads, through the top call.
use crate::calls::{FIRST, served, stored};
use crate::clocks::{CountingClock, RestingClock};
use crate::disks::{Role, Seen, WatchedDisk};
use crate::gates::{ManyReadings, TwoAtOnce};
use qz_rounds::StillClock;
use qz_serve::OpenGate;
use qz_top::Status;
use std::rt::HostRuntime;
use std::test::Fail;

/// A job that isn't durable, and a trigger of it that is due once.
const ONCE: &str = r#"{"do":"add_job","job":{"name":"report","class":"ok"}}
{"do":"add_trigger","trigger":{"name":"t1","job":"report","kind":"simple","start":1704067200000}}
"#;

/// Two jobs that are due at once.
const TWICE: &str = r#"{"do":"add_job","job":{"name":"one","class":"ok"}}
{"do":"add_job","job":{"name":"two","class":"ok"}}
{"do":"add_trigger","trigger":{"name":"t1","job":"one","kind":"simple","start":1704067200000}}
{"do":"add_trigger","trigger":{"name":"t2","job":"two","kind":"simple","start":1704067200000}}
"#;

#[test]
fn what_is_due_once_is_fired_once(rt: HostRuntime) -> Result<(), Fail> {
    let disks = stored(rt.alloc(), ONCE).ok_or("no stores")?;
    let clock = StillClock::new(FIRST);
    let told = served(
        &rt,
        rt.alloc(),
        &["serve", "2", "1704067200000"],
        disks,
        &clock,
        &OpenGate,
    )
    .ok_or("no memory")?;
    assert!(rt;
        told.status == Status::Ok && told.err.bytes().is_empty(),
        "{}",
        told.text()
    );
    assert_eq!(rt; (told.looks(), told.firings()), (Some(0), 1));
    assert!(rt;
        told.text().contains(
            "\nsummary fired 1 misfired 0 recovered 0 jobs 0 triggers 0 at 1704067200000\n"
        )
    );
    Ok(())
}

// A board is looked at three times while the nodes work, and once at the end.
#[test]
fn looks_come_before_the_history(rt: HostRuntime) -> Result<(), Fail> {
    let disks = stored(rt.alloc(), ONCE).ok_or("no stores")?;
    let clock = StillClock::new(FIRST);
    let told = served(
        &rt,
        rt.alloc(),
        &["serve", "2", "1704067200000", "3"],
        disks,
        &clock,
        &OpenGate,
    )
    .ok_or("no memory")?;
    assert!(rt; told.status == Status::Ok, "{}", told.text());
    assert_eq!(rt; (told.looks(), told.firings()), (Some(4), 1));
    Ok(())
}

// A gate holds the only execution until the clock was read a thousand times. Then all that reads it any more is the thread that looks,
// twice for each look: the node is held, and its check-in thread has ended. So some looks show that the execution goes on.
#[test]
fn looks_are_made_while_a_job_runs(rt: HostRuntime) -> Result<(), Fail> {
    let disks = stored(rt.alloc(), ONCE).ok_or("no stores")?;
    let clock = CountingClock::new(FIRST, 1704070800000);
    let gate = ManyReadings::new(&clock, 1000);
    let words = ["serve", "1", "1704070800000", "1000"];
    let told = served(&rt, rt.alloc(), &words, disks, &clock, &gate).ok_or("no memory")?;
    assert!(rt; told.status == Status::Ok && gate.was_met());
    assert_eq!(rt; (told.looks(), told.firings()), (Some(1001), 1));
    assert!(rt; told.text().contains(" executing 1 "));
    Ok(())
}

#[test]
fn new_stores_have_nothing_to_do(rt: HostRuntime) -> Result<(), Fail> {
    let disks = stored(rt.alloc(), "").ok_or("no stores")?;
    let clock = StillClock::new(0);
    let told = served(
        &rt,
        rt.alloc(),
        &["serve", "1", "0"],
        disks,
        &clock,
        &OpenGate,
    )
    .ok_or("no memory")?;
    assert!(rt; told.status == Status::Ok, "{}", told.text());
    assert!(rt;
        told.text().ends_with("\nsummary fired 0 misfired 0 recovered 0 jobs 0 triggers 0 at 0\n")
    );
    Ok(())
}

// A gate holds the first execution until the second has begun: nodes that work one after the other would wait in vain.
#[test]
fn two_nodes_execute_at_once(rt: HostRuntime) -> Result<(), Fail> {
    let disks = stored(rt.alloc(), TWICE).ok_or("no stores")?;
    let clock = StillClock::new(FIRST);
    let gate = TwoAtOnce::new();
    let told = served(
        &rt,
        rt.alloc(),
        &["serve", "2", "1704067200000"],
        disks,
        &clock,
        &gate,
    )
    .ok_or("no memory")?;
    assert!(rt;
        told.status == Status::Ok && gate.was_met(),
        "{}",
        told.text()
    );
    assert_eq!(rt; told.firings(), 2);
    Ok(())
}

// A sync of the one disk waits for a write on the other: a lock round both stores would let it wait in vain.
#[test]
fn a_node_checks_in_while_its_transaction_waits(rt: HostRuntime) -> Result<(), Fail> {
    let (triggers, states) = stored(rt.alloc(), ONCE).ok_or("no stores")?;
    let seen = Seen::new();
    // the opening syncs once, and the join of the node twice
    let triggers = WatchedDisk::new(triggers, &seen, Role::Waits { at: 4 });
    let states = WatchedDisk::new(states, &seen, Role::Tells);
    let clock = RestingClock::new(FIRST, 1704067300000, &seen);
    let words = ["serve", "1", "1704067300000"];
    let told = served(
        &rt,
        rt.alloc(),
        &words,
        (triggers, states),
        &clock,
        &OpenGate,
    )
    .ok_or("no memory")?;
    assert!(rt; told.status == Status::Ok, "{}", told.text());
    drop(told);
    assert!(rt; seen.was_met());
    Ok(())
}
