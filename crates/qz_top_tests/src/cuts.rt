//! A script whose trigger disk is cut in the middle of a recovery.
use crate::calls::{DONE, Wanted, answers, made};
use qz_disk::{CutDisk, MemDisk};
use std::alloc::Global;

/// B executes two jobs, of which one requests recovery, and stops. A recovers it, which the disk cuts off. After a restart A
/// joins and checks in, and recovers it once more.
const CUT_OFF: &[u8] = br#"{"do":"add_job","job":{"name":"r","class":"ok","requests_recovery":true}}
{"do":"add_job","job":{"name":"n","class":"ok"}}
{"do":"add_trigger","trigger":{"name":"tr","job":"r","kind":"simple","start":1704067200000,"priority":5}}
{"do":"add_trigger","trigger":{"name":"tn","job":"n","kind":"simple","start":1704067200000,"priority":6}}
{"do":"join","node":"B"}
{"do":"join","node":"A"}
{"do":"acquire","node":"B","no_later":1704067200000,"max":2}
{"do":"fire","node":"B","entry":1}
{"do":"fire","node":"B","entry":2}
{"do":"stop","node":"B"}
{"do":"check_in","at":1704067230000,"node":"A"}
{"do":"recover","at":1704067230000,"node":"A","failed":"B"}
{"do":"recover","at":1704067230000,"node":"A","failed":"B"}
{"do":"restart"}
{"do":"join","at":1704067231000,"node":"A"}
{"do":"check_in","at":1704067231000,"node":"A"}
{"do":"recover","at":1704067231000,"node":"A","failed":"B"}
{"do":"acquire","at":1704067231000,"node":"A","no_later":1704067200000,"max":9}
"#;

/// The recovery wasn't there after the restart, or it was.
const DONE_LATER: &str = "ok\nok\nok next 1704067200000\nok next 1704067200000
joined 1 executions 0 triggers 0\njoined 2 executions 0 triggers 0
acquired 1 DEFAULT/tn 1704067200000 2 DEFAULT/tr 1704067200000
fired 1 scheduled 1704067200000 at 1704067200000 next none
fired 2 scheduled 1704067200000 at 1704067200000 next none
ok\nok\nfault\nclosed\nrestarted\njoined 3 executions 0 triggers 0\nok\nrecovered executions 2 triggers 1
acquired 3 RECOVERING_JOBS/recover_B_2 1704067200000\n";

const DONE_BEFORE: &str = "ok\nok\nok next 1704067200000\nok next 1704067200000
joined 1 executions 0 triggers 0\njoined 2 executions 0 triggers 0
acquired 1 DEFAULT/tn 1704067200000 2 DEFAULT/tr 1704067200000
fired 1 scheduled 1704067200000 at 1704067200000 next none
fired 2 scheduled 1704067200000 at 1704067200000 next none
ok\nok\nfault\nclosed\nrestarted\njoined 3 executions 0 triggers 0\nok\nrefused 20
acquired 3 RECOVERING_JOBS/recover_B_2 1704067200000\n";

// New stores, the trigger store on a disk that is cut after so many calls.
fn cut_after(alloc: Global, calls: u64) -> Option<(CutDisk<MemDisk>, CutDisk<MemDisk>)> {
    let (triggers, states) = made(alloc)?;
    Some((CutDisk::new(triggers, calls), CutDisk::new(states, 1 << 40)))
}

#[test]
fn a_recovery_that_is_cut_off_is_there_or_not(rt: HostRuntime) {
    // An opening makes four calls, and each of the nine transactions before the recovery makes four: it is cut after none of
    // its calls, or 1, 2 or 3.
    let cuts = [
        (40, DONE_LATER),
        (41, DONE_LATER),
        (42, DONE_LATER),
        (43, DONE_BEFORE),
    ];
    for (calls, replies) in cuts {
        let wanted = Wanted { replies, ..DONE };
        assert!(rt;
            answers(
                rt.alloc(),
                cut_after(rt.alloc(), calls),
                &["script"],
                CUT_OFF,
                &wanted
            ),
            "after {calls} calls"
        );
    }
}
