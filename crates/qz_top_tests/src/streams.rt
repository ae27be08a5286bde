//! Calls whose input or output fails.
use crate::calls::{call_into, made, new_disks, numbers, prepare};
use qz_disk::MemDisk;
use qz_io::{FaultSink, MemSink, Sink};
use qz_top::{BadKind, Ended, Status};
use std::alloc::Global;

const SIX: &[u8] = br#"{"do":"add_job","job":{"name":"report","class":"ok"}}
{"do":"add_trigger","trigger":{"name":"t1","job":"report","kind":"simple","start":1704067200000}}
{"do":"join","node":"A"}
{"do":"acquire","node":"A","no_later":1704067200000}
{"do":"fire","node":"A","entry":1}
{"do":"complete","node":"A","entry":1}
"#;

const SIX_REPLIES: &str =
    "ok\nok next 1704067200000\njoined 1 executions 0 triggers 0\nacquired 1 DEFAULT/t1 1704067200000
fired 1 scheduled 1704067200000 at 1704067200000 next none\ncompleted 1\n";

const JOIN: &[u8] = br#"{"do":"join","node":"A"}
"#;

/// A join, and a line that is cut.
const UNENDED: &[u8] = br#"{"do":"join","node":"A"}
{"do":"fire","node":"A""#;

const JOINED: &str = "joined 1 executions 0 triggers 0\n";

const ZONE: &[u8] = br#"{"do":"add_zone","name":"Z","stretches":[[0,3600]]}
"#;

const NONE_DUE: &str = "1 1704067200000 client join joined 1 executions 0 triggers 0
2 1704067200000 n1:1 leave ok
summary fired 0 misfired 0 recovered 0 jobs 0 triggers 0 at 1704067200000
";

/// A call whose input or output fails.
#[derive(Clone, Copy)]
struct StreamRow {
    words: &'static [&'static str],
    /// Whether it works on stores.
    stores: bool,
    input: &'static [u8],
    /// The reads that fail, and the writes and flushes, counted together.
    reads: &'static [u64],
    writes: &'static [u64],
    /// What the output takes, and what of it was handed on.
    taken: &'static str,
    handed: &'static str,
    error: &'static str,
    status: Status,
}

/// A call without words whose second write fails.
const WRITE_FAULT: StreamRow = StreamRow {
    words: &[],
    stores: false,
    input: SIX,
    reads: &[],
    writes: &[2],
    taken: "ok\n",
    handed: "ok\n",
    error: "qz: write fault\n",
    status: Status::WriteFault,
};

const ROWS: [StreamRow; 10] = [
    WRITE_FAULT,
    // What was read is answered.
    StreamRow {
        reads: &[2],
        writes: &[],
        taken: SIX_REPLIES,
        handed: SIX_REPLIES,
        error: "qz: read fault\n",
        status: Status::ReadFault,
        ..WRITE_FAULT
    },
    // The first cause is told: the bad line, and not the flush after it.
    StreamRow {
        input: UNENDED,
        taken: JOINED,
        handed: "",
        error: "qz: line 2: not JSON\n",
        status: Status::BadLine {
            line: 2,
            fault: BadKind::NotJson,
        },
        ..WRITE_FAULT
    },
    // The flush alone fails.
    StreamRow {
        writes: &[7],
        taken: SIX_REPLIES,
        handed: "",
        ..WRITE_FAULT
    },
    StreamRow {
        words: &["script"],
        stores: true,
        input: JOIN,
        taken: JOINED,
        handed: "",
        ..WRITE_FAULT
    },
    StreamRow {
        words: &["init"],
        taken: "created\n",
        handed: "",
        ..WRITE_FAULT
    },
    StreamRow {
        words: &["run", "1", "1704067200000", "1704067200000"],
        stores: true,
        taken: NONE_DUE,
        handed: "",
        ..WRITE_FAULT
    },
    StreamRow {
        words: &["times", "0", "1"],
        input: ZONE,
        handed: "",
        ..WRITE_FAULT
    },
    // `times` can't read, or can't write.
    StreamRow {
        words: &["times", "0", "1"],
        input: ZONE,
        reads: &[1],
        writes: &[],
        taken: "",
        handed: "",
        error: "qz: read fault\n",
        status: Status::ReadFault,
        ..WRITE_FAULT
    },
    StreamRow {
        words: &["times", "0", "1"],
        input: ZONE,
        writes: &[1],
        taken: "",
        handed: "",
        ..WRITE_FAULT
    },
];

// Whether the output took these bytes, and handed on those.
fn has(out: &FaultSink, taken: &str, handed: &str) -> bool {
    out.bytes() == taken.as_bytes() && out.handed() == handed.as_bytes()
}

// What the call of the row came to, and what it says on the other output.
fn called(
    alloc: Global,
    row: &StreamRow,
    out: &mut FaultSink,
) -> Option<(Ended<MemDisk>, MemSink)> {
    let disks = if row.stores {
        made(alloc)
    } else {
        new_disks(alloc)
    };
    let (triggers, states) = disks?;
    let Ok((given, job)) = prepare(alloc, row.words, row.input, row.reads, &[]) else {
        drop((triggers, states));
        return None;
    };
    call_into(alloc, given, job, out, triggers, states)
}

// Whether the call ends as the row says.
fn ends_so(alloc: Global, row: &StreamRow) -> Option<bool> {
    let failing = numbers(alloc, row.writes).ok()?;
    let mut out = FaultSink::new(alloc, failing);
    let told = match called(alloc, row, &mut out) {
        Some((ended, err)) => {
            let told = ended.status == row.status && err.handed() == row.error.as_bytes();
            drop((ended, err));
            told
        }
        None => false,
    };
    let is_right = told && has(&out, row.taken, row.handed);
    drop(out);
    Some(is_right)
}

#[test]
fn streams_fail(rt: HostRuntime) {
    for row in ROWS {
        assert!(rt;
            ends_so(rt.alloc(), &row) == Some(true),
            "at {:?}, {:?}, {:?}",
            row.words,
            row.reads,
            row.writes
        );
    }
}
