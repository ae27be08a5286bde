//! The one line on standard error that tells why a call didn't end well.
ghost use Rattle.std.specs.Prelude.{◌≡◌, ◌++◌, codes, OnOk};
ghost use Rattle.std.specs.Fmt.{decimal};
ghost use Rattle.std.specs.Io.KnownBytes.{Appends};
ghost use Rattle.qz_civil.specs.Causes.{HasCause};
ghost use Rattle.qz_top.specs.Statuses.{kind_text, store_text, error_text, Reported, WritesLine};

use crate::{BadKind, Status};
use itoa::Buffer;
use qz_io::{Failed, Sink, write_all};
use qz_types::Store;

/// Writes the line of a status and hands it on; nothing for `Ok`. Takes no memory. That `err` failed is passed over.
pub fn report<E: Sink>(status: Status, err: &mut E)
    ensures { Reported E.Sink status err.old err.new }
{
    match status {
        Status::Ok => {}
        other => write_line(other, err),
    }
}

// Writes the line of a status and hands on what `err` holds.
fn write_line<E: Sink>(status: Status, err: &mut E)
    ensures { WritesLine E.Sink (error_text status) err.old err.new }
{
    let _ = write_error(status, err);
    let _ = err.flush();
}

fn write_error<E: Sink>(status: Status, err: &mut E) -> Result<(), Failed>
    ensures ok { OnOk result (Appends (E.held err.old) (E.held err.new) (error_text status)) }
    ensures cause { HasCause (E.faults err.old) (E.faults err.new) result }
{
    match status {
        Status::Ok => Ok(()),
        Status::BadWords { fault: _ } => write_all(err, b"qz: bad words\n"),
        Status::BadLine { line, fault } => write_bad_line(line, fault, err),
        Status::ReadFault => write_all(err, b"qz: read fault\n"),
        Status::WriteFault => write_all(err, b"qz: write fault\n"),
        Status::DiskFault => write_all(err, b"qz: disk fault\n"),
        Status::NotAStore { store } => write_all(err, not_a_store(store).as_bytes()),
        Status::Damaged { store, at } => write_damaged(store, at, err),
        Status::JournalFull { need, room } => write_full(need, room, err),
        Status::Budget { firings } => write_budget(firings, err),
        Status::NoMemory => write_all(err, b"qz: no memory\n"),
        Status::Exists => write_all(err, b"qz: store exists\n"),
        Status::TooMany { count } => write_too_many(count, err),
        Status::OldStore => write_all(err, b"qz: old store\n"),
        Status::BadStream { at } => write_bad_stream(at, err),
        Status::Fenced => write_all(err, b"qz: fenced\n"),
    }
}

fn not_a_store(store: Store) -> &'static str
    ensures { result.now ≡ error_text (Status.NotAStore store) }
{
    match store {
        Store::Triggers => "qz: triggers not a store\n",
        Store::States => "qz: states not a store\n",
    }
}

fn write_damaged<E: Sink>(store: Store, at: u64, err: &mut E) -> Result<(), Failed>
    ensures ok { OnOk result (Appends (E.held err.old) (E.held err.new) (error_text (Status.Damaged store at))) }
    ensures cause { HasCause (E.faults err.old) (E.faults err.new) result }
{
    write_store(store, err)?;
    write_number(b" damaged at ", at, err)?;
    write_all(err, b"\n")
}

fn write_store<E: Sink>(store: Store, err: &mut E) -> Result<(), Failed>
    ensures ok { OnOk result (Appends (E.held err.old) (E.held err.new) (codes "qz: " ++ store_text store)) }
    ensures cause { HasCause (E.faults err.old) (E.faults err.new) result }
{
    write_all(err, b"qz: ")?;
    write_all(err, name_of(store).as_bytes())
}

fn write_full<E: Sink>(need: u64, room: u64, err: &mut E) -> Result<(), Failed>
    ensures ok { OnOk result (Appends (E.held err.old) (E.held err.new) (error_text (Status.JournalFull need room))) }
    ensures cause { HasCause (E.faults err.old) (E.faults err.new) result }
{
    write_number(b"qz: journal full need ", need, err)?;
    write_number(b" room ", room, err)?;
    write_all(err, b"\n")
}

fn write_budget<E: Sink>(firings: u64, err: &mut E) -> Result<(), Failed>
    ensures ok { OnOk result (Appends (E.held err.old) (E.held err.new) (error_text (Status.Budget firings))) }
    ensures cause { HasCause (E.faults err.old) (E.faults err.new) result }
{
    write_number(b"qz: budget ", firings, err)?;
    write_all(err, b" spent\n")
}

fn write_too_many<E: Sink>(count: u64, err: &mut E) -> Result<(), Failed>
    ensures ok { OnOk result (Appends (E.held err.old) (E.held err.new) (error_text (Status.TooMany count))) }
    ensures cause { HasCause (E.faults err.old) (E.faults err.new) result }
{
    write_number(b"qz: too many ", count, err)?;
    write_all(err, b"\n")
}

fn write_bad_stream<E: Sink>(at: u64, err: &mut E) -> Result<(), Failed>
    ensures ok { OnOk result (Appends (E.held err.old) (E.held err.new) (error_text (Status.BadStream at))) }
    ensures cause { HasCause (E.faults err.old) (E.faults err.new) result }
{
    write_number(b"qz: bad stream at ", at, err)?;
    write_all(err, b"\n")
}

// A text, and a number after it.
fn write_number<E: Sink>(text: &[u8], number: u64, err: &mut E) -> Result<(), Failed>
    ensures ok { OnOk result (Appends (E.held err.old) (E.held err.new) (text.now ++ decimal number)) }
    ensures cause { HasCause (E.faults err.old) (E.faults err.new) result }
{
    let mut buffer = Buffer::new();
    write_all(err, text)?;
    write_all(err, buffer.format(number).as_bytes())
}

fn name_of(store: Store) -> &'static str
    ensures { result.now ≡ store_text store }
{
    match store {
        Store::Triggers => "triggers",
        Store::States => "states",
    }
}

fn write_bad_line<E: Sink>(line: u64, kind: BadKind, err: &mut E) -> Result<(), Failed>
    ensures ok { OnOk result (Appends (E.held err.old) (E.held err.new) (error_text (Status.BadLine line kind))) }
    ensures cause { HasCause (E.faults err.old) (E.faults err.new) result }
{
    write_number(b"qz: line ", line, err)?;
    write_reason(kind, err)
}

fn write_reason<E: Sink>(kind: BadKind, err: &mut E) -> Result<(), Failed>
    ensures ok { OnOk result (Appends (E.held err.old) (E.held err.new) (codes ": " ++ kind_text kind ++ codes "\n")) }
    ensures cause { HasCause (E.faults err.old) (E.faults err.new) result }
{
    write_all(err, b": ")?;
    write_kind(kind, err)?;
    write_all(err, b"\n")
}

fn write_kind<E: Sink>(kind: BadKind, err: &mut E) -> Result<(), Failed>
    ensures ok { OnOk result (Appends (E.held err.old) (E.held err.new) (kind_text kind)) }
    ensures cause { HasCause (E.faults err.old) (E.faults err.new) result }
{
    match kind {
        BadKind::TooLong => write_all(err, b"too long"),
        BadKind::NotJson => write_all(err, b"not JSON"),
        BadKind::Shape => write_all(err, b"not a step"),
        BadKind::Cron(error) => write_number(b"bad cron ", u64::from(error.number()), err),
        BadKind::TooManyLines => write_all(err, b"too many lines"),
        BadKind::NotHere => write_all(err, b"not here"),
    }
}
