//! A job that asks for another execution again and again.
use crate::calls::{DONE, Wanted, answers, filled, left_by};
use qz_types::Code;
use std::alloc::Global;

const ONCE: &[u8] = br#"{"do":"add_job","job":{"name":"report","class":"ok"}}
{"do":"add_trigger","trigger":{"name":"t1","job":"report","kind":"simple","start":1704067200000}}
"#;

const AT_ONCE: &[&str] = &["run", "1", "1704067200000", "1704067200000"];

/// The ninth time that it asks is an error of its trigger.
const LINES: Wanted = Wanted {
    replies: "3 1704067200000 client join joined 1 executions 0 triggers 0
4 1704067200000 n1:1 misfires misfired none
5 1704067200000 n1:1 acquire acquired 1 DEFAULT/t1 1704067200000
6 1704067200000 n1:1 fire fired 1 scheduled 1704067200000 at 1704067200000 next none
7 1704067200000 n1:1 complete again 1
8 1704067200000 n1:1 complete again 1
9 1704067200000 n1:1 complete again 1
10 1704067200000 n1:1 complete again 1
11 1704067200000 n1:1 complete again 1
12 1704067200000 n1:1 complete again 1
13 1704067200000 n1:1 complete again 1
14 1704067200000 n1:1 complete again 1
15 1704067200000 n1:1 complete completed 1
16 1704067200000 n1:1 misfires misfired none
17 1704067200000 n1:1 acquire acquired none
18 1704067200000 n1:1 leave ok
summary fired 1 misfired 0 recovered 0 jobs 1 triggers 1 at 1704067200000
",
    ..DONE
};

const LISTED: Wanted = Wanted {
    replies: "threshold 60000
job DEFAULT/report ok durable 0 no_concurrent 0 requests_recovery 0
trigger DEFAULT/t1 job DEFAULT/report ERROR next none prev 1704067200000 times 1 priority 5 start 1704067200000 simple 0
",
    ..DONE
};

fn ends_in_error(alloc: Global) -> bool {
    let disks = filled(alloc, ONCE, "ok\nok next 1704067200000\n");
    let again = [Code::ReExecuteJob; 9];
    let after = left_by(alloc, disks, AT_ONCE, b"", &again, &LINES);
    answers(alloc, after, &["list"], b"", &LISTED)
}

#[test]
fn a_job_asks_eight_times(rt: HostRuntime) {
    assert!(rt; ends_in_error(rt.alloc()));
}
