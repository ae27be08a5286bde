//! The line on standard error.
ghost use Rattle.std.specs.Prelude.{◌≡◌, ◌++◌, OnOk, codes};
ghost use Rattle.std.specs.Fmt.{decimal};
ghost use Rattle.std.specs.Io.KnownBytes.{Appends};
ghost use Rattle.qz_civil.specs.Causes.{HasCause};
ghost use Rattle.qz_top.specs.Statuses.{WritesLine};
ghost use Rattle.qz_tell.specs.Histories.{Reports};
ghost use Rattle.qz_tell.specs.Lines.{beginning_text};

use itoa::Buffer;
use qz_io::{Failed, Sink, write_all};
use qz_top::Status;

/// Writes where the history begins, if that is to be said, or the line of a status, and hands it on. Takes no memory. That `err`
/// failed is passed over.
pub(crate) fn report<E: Sink>(status: Status, begins: Option<u64>, err: &mut E)
    ensures { Reports E.Sink status begins err.old err.new }
{
    match (status, begins) {
        (Status::Ok, Some(number)) => write_line(number, err),
        (status, _) => qz_top::report(status, err),
    }
}

fn write_line<E: Sink>(number: u64, err: &mut E)
    ensures { WritesLine E.Sink (beginning_text number) err.old err.new }
{
    let _ = write_beginning(number, err);
    let _ = err.flush();
}

fn write_beginning<E: Sink>(number: u64, err: &mut E) -> Result<(), Failed>
    ensures ok { OnOk result (Appends (E.held err.old) (E.held err.new) (beginning_text number)) }
    ensures cause { HasCause (E.faults err.old) (E.faults err.new) result }
{
    write_start(number, err)?;
    write_all(err, b"\n")
}

// The line without its end.
fn write_start<E: Sink>(number: u64, err: &mut E) -> Result<(), Failed>
    ensures ok { OnOk result (Appends (E.held err.old) (E.held err.new) (codes "qz: begins at " ++ decimal number)) }
    ensures cause { HasCause (E.faults err.old) (E.faults err.new) result }
{
    let mut buffer = Buffer::new();
    write_all(err, b"qz: begins at ")?;
    write_all(err, buffer.format(number).as_bytes())
}
