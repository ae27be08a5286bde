//! The texts that errors print, each once.
use qz_civil::Failed;
use qz_cluster::StepEnd;
use qz_codec::ReadError;
use qz_cron_text::CronError;
use qz_input::ReadWholeError;
use qz_job_json::{LineError, LineFault};
use qz_journal::{AppendError, CreateError, JournalFull, MountError};
use qz_types::{Refusal, Store, SubmitError};
use std::alloc::Global;
use std::fmt::Display;

// Whether the error prints this.
fn prints<E: Display>(alloc: Global, error: &E, text: &str) -> bool {
    match error.to_string(alloc) {
        Ok(printed) => printed.as_str() == text,
        Err(_) => false,
    }
}

const FULL: JournalFull = JournalFull { need: 40, room: 9 };

const FULL_TEXT: &str = "the journal is full: 40 bytes are needed and 9 are left";

const CREATE: [(CreateError, &str); 3] = [
    (CreateError::Exists, "the store exists"),
    (CreateError::OtherKind, "the disk holds the other store"),
    (CreateError::Fault, "the disk failed"),
];

const MOUNT: [(MountError, &str); 4] = [
    (MountError::Fault, "the disk failed"),
    (MountError::NotAStore, "no store of this kind"),
    (MountError::Damaged { at: 16 }, "the store is damaged at 16"),
    (MountError::NoMemory, "no memory"),
];

const APPEND: [(AppendError, &str); 3] = [
    (
        AppendError::Closed { at: 16 },
        "the journal is closed at 16",
    ),
    (AppendError::JournalFull { need: 40, room: 9 }, FULL_TEXT),
    (AppendError::Fault, "the disk failed"),
];

const STEP: [(StepEnd, &str); 4] = [
    (StepEnd::JournalFull { need: 40, room: 9 }, FULL_TEXT),
    (
        StepEnd::NotAStore {
            store: Store::States,
        },
        "the disk has no store any more",
    ),
    (
        StepEnd::Damaged {
            store: Store::States,
            at: 16,
        },
        "the store is damaged at 16",
    ),
    (StepEnd::NoMemory, "no memory"),
];

const READ: [(ReadError, &str); 2] = [
    (
        ReadError::BadRecord { at: 7 },
        "no record: the field at byte 7 is wrong",
    ),
    (ReadError::NoMemory, "no memory"),
];

const WHOLE: [(ReadWholeError, &str); 3] = [
    (ReadWholeError::Failed, "read fault"),
    (ReadWholeError::TooLong, "too long"),
    (ReadWholeError::NoMemory, "no memory"),
];

const LINE: [(LineError, &str); 6] = [
    (LineError::Bad(LineFault::TooLong), "too long"),
    (LineError::Bad(LineFault::NotJson), "not JSON"),
    (LineError::Bad(LineFault::NotHere), "not here"),
    (LineError::Bad(LineFault::Shape), "not a step"),
    (
        LineError::Bad(LineFault::Cron(CronError::NoDays)),
        "bad cron 5",
    ),
    (LineError::NoMemory, "no memory"),
];

// Whether each of these errors prints its text.
fn all_print<E: Display>(alloc: Global, rows: &[(E, &str)]) -> bool {
    for (error, text) in rows {
        if !prints(alloc, error, text) {
            return false;
        }
    }
    true
}

// Whether the errors of lines, records and inputs print their texts, and those of a journal.
fn errors_print(alloc: Global) -> bool {
    prints(alloc, &Failed, "the device failed")
        && prints(alloc, &FULL, FULL_TEXT)
        && all_print(alloc, &CREATE)
        && all_print(alloc, &MOUNT)
        && all_print(alloc, &APPEND)
        && all_print(alloc, &STEP)
        && all_print(alloc, &READ)
        && all_print(alloc, &WHOLE)
        && all_print(alloc, &LINE)
}

// Whether the errors of a store print their texts.
fn store_errors_print(alloc: Global) -> bool {
    prints(
        alloc,
        &SubmitError::Closed { at: 16 },
        "the store is closed at 16",
    ) && prints(
        alloc,
        &SubmitError::Refused(Refusal::StillMember),
        "the transaction is refused",
    ) && prints(
        alloc,
        &SubmitError::JournalFull { need: 40, room: 9 },
        FULL_TEXT,
    ) && prints(alloc, &SubmitError::NoMemory, "no memory")
        && prints(alloc, &SubmitError::Fault, "the disk failed")
}

#[test]
fn errors_print_their_texts(rt: HostRuntime) {
    assert!(rt; errors_print(rt.alloc()) && store_errors_print(rt.alloc()));
}
