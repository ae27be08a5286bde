//! What the program writes.
use crate::jobs::Counter;
use qz_io::{Sink, write_all};
use qz_top::Status;
use std::alloc::Global;
use std::sync::atomic::Ordering;

/// Writes the last line of the text, which is the summary of the run, and the number of backups.
pub fn tell<K: Sink>(
    alloc: Global,
    text: &[u8],
    backups: &Counter,
    out: &mut K,
) -> Result<(), Status> {
    let Ok(line) = format!(in alloc; "backups {}\n", backups.load(Ordering::SeqCst)) else {
        return Err(Status::NoMemory);
    };
    write(out, last_line(text))?;
    write(out, line.as_bytes())
}

fn write<K: Sink>(out: &mut K, bytes: &[u8]) -> Result<(), Status> {
    match write_all(out, bytes) {
        Ok(()) => Ok(()),
        Err(_) => Err(Status::WriteFault),
    }
}

// The last line of a text, with its line feed.
fn last_line(text: &[u8]) -> &[u8] {
    for begin in (1..text.len()).rev() {
        if text[begin - 1] == b'\n' {
            return &text[begin..];
        }
    }
    text
}
