//! Calls whose disks fail.
use crate::calls::{DONE, Wanted, answers, filled, left, made, new_disks, numbers};
use qz_disk::{FaultDisk, MemDisk};
use qz_journal::{STATES, TRIGGERS, create_version};
use qz_top::Status;
use std::alloc::Global;

/// What the disks hold at first.
#[derive(Clone, Copy)]
enum Before {
    Nothing,
    NewStores,
    /// A trigger that is due once.
    Once,
    /// New stores of version 1.
    OldStores,
}

/// A call whose disks fail at these calls of them, and the next call on them.
#[derive(Clone, Copy)]
struct DiskRow {
    before: Before,
    triggers_at: &'static [u64],
    states_at: &'static [u64],
    words: &'static [&'static str],
    input: &'static [u8],
    wanted: Wanted,
    next_words: &'static [&'static str],
    next_input: &'static [u8],
    next_wanted: Wanted,
}

const FAULT: Wanted = Wanted {
    replies: "",
    error: "qz: disk fault\n",
    status: Status::DiskFault,
};

const THREE: &[u8] = br#"{"do":"add_job","job":{"name":"report","class":"ok"}}
{"do":"add_trigger","trigger":{"name":"t1","job":"report","kind":"simple","start":1704067200000}}
{"do":"join","node":"A"}
{"do":"resume","node":"A","epoch":1}
{"do":"show_next"}
"#;

/// A script whose second transaction finds a disk that fails: the store is closed then. An opening makes four calls, and each
/// transaction four.
const SCRIPT: DiskRow = DiskRow {
    before: Before::NewStores,
    triggers_at: &[9],
    states_at: &[],
    words: &["script"],
    input: THREE,
    wanted: Wanted {
        replies: "ok\nfault\nclosed\nclosed\nclosed\n",
        ..FAULT
    },
    next_words: &["script"],
    next_input: b"",
    next_wanted: DONE,
};

const RESTARTED: &[u8] = br#"{"do":"add_job","job":{"name":"report","class":"ok"}}
{"do":"add_trigger","trigger":{"name":"t1","job":"report","kind":"simple","start":1704067200000}}
{"do":"join","node":"A"}
{"do":"restart"}
{"do":"add_trigger","trigger":{"name":"t1","job":"report","kind":"simple","start":1704067200000}}
"#;

const CHECKED_IN: &[u8] = br#"{"do":"join","node":"A"}
{"do":"join","node":"A"}
{"do":"add_job","job":{"name":"report","class":"ok"}}
"#;

const RESTARTED_AT_ONCE: &[u8] = br#"{"do":"restart"}
{"do":"stop","node":"A"}
{"do":"join","node":"A"}
"#;

/// A restart whose first call on a disk fails.
const NO_RESTART: DiskRow = DiskRow {
    triggers_at: &[5],
    input: RESTARTED_AT_ONCE,
    wanted: Wanted {
        replies: "fault\nstopped\nclosed\n",
        ..FAULT
    },
    ..SCRIPT
};

const SCRIPTS: &[DiskRow] = &[
    SCRIPT,
    // A restart opens the store again.
    DiskRow {
        input: RESTARTED,
        wanted: Wanted {
            replies: "ok\nfault\nclosed\nrestarted\nok next 1704067200000\n",
            ..DONE
        },
        ..SCRIPT
    },
    // The state store is closed, and the other one goes on.
    DiskRow {
        triggers_at: &[],
        states_at: &[5],
        input: CHECKED_IN,
        wanted: Wanted {
            replies: "fault\nclosed\nok\n",
            ..FAULT
        },
        ..SCRIPT
    },
    // A restart that fails closes both stores.
    NO_RESTART,
    DiskRow {
        triggers_at: &[],
        states_at: &[5],
        ..NO_RESTART
    },
];

/// A run that stops where its node completes an execution.
const RUN: DiskRow = DiskRow {
    before: Before::Once,
    triggers_at: &[21],
    words: &["run", "1", "1704067200000", "1704067200000"],
    input: b"",
    wanted: Wanted {
        replies: "3 1704067200000 client join joined 1 executions 0 triggers 0
4 1704067200000 n1:1 misfires misfired none
5 1704067200000 n1:1 acquire acquired 1 DEFAULT/t1 1704067200000
6 1704067200000 n1:1 fire fired 1 scheduled 1704067200000 at 1704067200000 next none
summary fired 1 misfired 0 recovered 0 jobs 1 triggers 1 at 1704067200000
",
        ..FAULT
    },
    ..SCRIPT
};

const RUNS: &[DiskRow] = &[
    RUN,
    // where its node checks in
    DiskRow {
        triggers_at: &[],
        states_at: &[5],
        wanted: Wanted {
            replies: "summary fired 0 misfired 0 recovered 0 jobs 1 triggers 1 at 1704067200000\n",
            ..FAULT
        },
        ..RUN
    },
    // where its node is forgotten
    DiskRow {
        triggers_at: &[],
        states_at: &[9],
        wanted: Wanted {
            replies: "3 1704067200000 client join joined 1 executions 0 triggers 0
4 1704067200000 n1:1 misfires misfired none
5 1704067200000 n1:1 acquire acquired 1 DEFAULT/t1 1704067200000
6 1704067200000 n1:1 fire fired 1 scheduled 1704067200000 at 1704067200000 next none
7 1704067200000 n1:1 complete completed 1
8 1704067200000 n1:1 misfires misfired none
9 1704067200000 n1:1 acquire acquired none
10 1704067200000 n1:1 leave ok
summary fired 1 misfired 0 recovered 0 jobs 0 triggers 0 at 1704067200000
",
            ..FAULT
        },
        ..RUN
    },
];

/// An upgrade that fails, and one more. An opening makes four calls and a commit four: the gate is open after the seventh.
const UPGRADE: DiskRow = DiskRow {
    before: Before::OldStores,
    triggers_at: &[1],
    words: &["migrate"],
    input: b"",
    wanted: FAULT,
    next_words: &["migrate"],
    next_wanted: Wanted {
        replies: "migrated\n",
        ..DONE
    },
    ..SCRIPT
};

const UPGRADES: &[DiskRow] = &[
    UPGRADE,
    DiskRow {
        triggers_at: &[5],
        ..UPGRADE
    },
    DiskRow {
        triggers_at: &[6],
        ..UPGRADE
    },
    DiskRow {
        triggers_at: &[7],
        ..UPGRADE
    },
    DiskRow {
        triggers_at: &[8],
        next_wanted: Wanted {
            replies: "current\n",
            ..DONE
        },
        ..UPGRADE
    },
];

const ASKING: &[u8] = br#"{"do":"checkpoint"}
{"do":"show_room"}
{"do":"add_job","job":{"name":"report","class":"ok"}}
"#;

const RESTARTING: &[u8] = br#"{"do":"restart"}
{"do":"show_room"}
{"do":"restart"}
{"do":"show_room"}
{"do":"checkpoint"}
"#;

const ROOM: &[u8] = b"{\"do\":\"show_room\"}\n";

/// A checkpoint between two lines that finds a disk that fails: the store is closed then, and tells what stood before.
const CHECKPOINT: DiskRow = DiskRow {
    before: Before::NewStores,
    triggers_at: &[5],
    states_at: &[],
    words: &["script"],
    input: ASKING,
    wanted: Wanted {
        replies: "fault\nroom triggers 16 0 behind 0 states 16 0\nclosed\n",
        ..FAULT
    },
    next_words: &["script"],
    next_input: ROOM,
    next_wanted: Wanted {
        replies: "room triggers 16 0 behind 0 states 16 0\n",
        ..DONE
    },
};

const CHECKPOINTS: &[DiskRow] = &[
    CHECKPOINT,
    // A restart that failed leaves no stores, and the next one finds both.
    DiskRow {
        input: RESTARTING,
        wanted: Wanted {
            replies: "fault\nclosed\nrestarted\nroom triggers 16 0 behind 0 states 16 0\ncheckpoint made\n",
            ..DONE
        },
        next_wanted: Wanted {
            replies: "room triggers 74 1 behind 0 states 16 0\n",
            ..DONE
        },
        ..CHECKPOINT
    },
];

/// The bytes of a trigger store with six entries: AddJob, AddTrigger, Join, Acquire, Fire and Complete.
const STREAM: &[u8] = b"QZ23\x02T\x00\x00\x00\x00\x00\x00\x00\x00\x00\x00\
    \xa5\x00\x00\x00*\x02\x00\x00\x01\x8c\xc2Q\xf4\x00\x00\x00\x00\x00\x00\x00\x00\
    \x07DEFAULT\x00\x06report\x00\x02ok\x00\x00\x00\x00\x00\x00\
    \xa5\x00\x00\x00N\x02\x00\x00\x01\x8c\xc2Q\xf4\x00\x00\x00\x00\x00\x00\x02\x00\
    \x07DEFAULT\x00\x02t1\x00\x07DEFAULT\x00\x06report\x00\x00\x00\x05\x00\x00\x00\
    \x00\x00\x00\x00\x00\x00\x00\x00\x00\x00\x00\x00\x00\x00\x00\x00\x00\x00\x01\
    \x8c\xc2Q\xf4\x00\x00\x00\
    \xa5\x00\x00\x00\x12\x02\x00\x00\x01\x8c\xc2Q\xf4\x00\x00\x00\x00\x00\x00\x0e\
    \x00\x01A\
    \xa5\x00\x00\x00.\x02\x00\x00\x01\x8c\xc2Q\xf4\x00\x01\x00\x01A\x00\x00\x00\
    \x00\x00\x00\x00\x01\x00\x00\x00\x00\x10\x00\x00\x01\x8c\xc2Q\xf4\x00\x00\x00\
    \x00\x00\x00\x00\x00\x00\x00\x00\x00\x01\
    \xa5\x00\x00\x00\"\x02\x00\x00\x01\x8c\xc2Q\xf4\x00\x01\x00\x01A\x00\x00\x00\
    \x00\x00\x00\x00\x01\x00\x00\x00\x00\x12\x00\x00\x00\x00\x00\x00\x00\x01\
    \xa5\x00\x00\x00#\x02\x00\x00\x01\x8c\xc2Q\xf4\x00\x01\x00\x01A\x00\x00\x00\
    \x00\x00\x00\x00\x01\x00\x00\x00\x00\x13\x00\x00\x00\x00\x00\x00\x00\x01\x00\
    \x00";

/// Stores that aren't made whole of a stream. Of the trigger store the first bytes are there.
const FOLLOW: DiskRow = DiskRow {
    before: Before::Nothing,
    triggers_at: &[6],
    words: &["follow"],
    input: STREAM,
    wanted: FAULT,
    next_words: &["follow"],
    next_input: STREAM,
    next_wanted: Wanted {
        error: "qz: store exists\n",
        status: Status::Exists,
        ..DONE
    },
    ..SCRIPT
};

const STREAMS: &[DiskRow] = &[
    FOLLOW,
    DiskRow {
        triggers_at: &[],
        states_at: &[5],
        ..FOLLOW
    },
    // There is no store before all of it is there, so that the next call makes it.
    DiskRow {
        words: &["compact"],
        next_words: &["compact"],
        next_wanted: Wanted {
            replies: "compacted 6\n",
            ..DONE
        },
        ..FOLLOW
    },
    DiskRow {
        triggers_at: &[],
        states_at: &[5],
        words: &["compact"],
        next_words: &["compact"],
        ..FOLLOW
    },
];

const ONCE: &[u8] = br#"{"do":"add_job","job":{"name":"report","class":"ok"}}
{"do":"add_trigger","trigger":{"name":"t1","job":"report","kind":"simple","start":1704067200000}}
"#;

// The disks of new stores of version 1.
fn old(alloc: Global) -> Option<(MemDisk, MemDisk)> {
    let (mut triggers, mut states) = (MemDisk::new(alloc), MemDisk::new(alloc));
    let triggers_made = create_version(&mut triggers, 1, TRIGGERS).is_ok();
    let states_made = create_version(&mut states, 1, STATES).is_ok();
    if triggers_made && states_made {
        Some((triggers, states))
    } else {
        drop((triggers, states));
        None
    }
}

fn disks(alloc: Global, before: Before) -> Option<(MemDisk, MemDisk)> {
    match before {
        Before::Nothing => new_disks(alloc),
        Before::NewStores => made(alloc),
        Before::Once => filled(alloc, ONCE, "ok\nok next 1704067200000\n"),
        Before::OldStores => old(alloc),
    }
}

// Disks that hold the same, and fail at the calls of the row.
fn failing(alloc: Global, row: &DiskRow) -> Option<(FaultDisk<MemDisk>, FaultDisk<MemDisk>)> {
    let triggers_at = numbers(alloc, row.triggers_at).ok()?;
    let states_at = numbers(alloc, row.states_at).ok()?;
    let (triggers, states) = disks(alloc, row.before)?;
    Some((
        FaultDisk::new(triggers, triggers_at),
        FaultDisk::new(states, states_at),
    ))
}

// Whether both calls are as the row says.
fn are_answered(alloc: Global, row: &DiskRow) -> bool {
    let disks = failing(alloc, row);
    let after = left(alloc, disks, row.words, row.input, &row.wanted);
    answers(
        alloc,
        after,
        row.next_words,
        row.next_input,
        &row.next_wanted,
    )
}

#[test]
fn disks_fail(rt: HostRuntime) {
    for table in [SCRIPTS, RUNS, UPGRADES, CHECKPOINTS, STREAMS] {
        for row in table {
            assert!(rt;
                are_answered(rt.alloc(), row),
                "at {:?}, {:?}, {:?}",
                row.words,
                row.triggers_at,
                row.states_at
            );
        }
    }
}
