//! Sources, sinks and clocks: inputs that come in small pieces, devices that fail, and those of the system, each once.
ghost use Rattle.std.specs.Prelude.{Some};

use qz_civil::{Failed, List, beside};
use qz_input::{DOCUMENT_LIMIT, read_whole};
use qz_io::{
    Clock, FaultSink, FaultSource, Found, LineReader, ListClock, MemSink, MemSource, RealClock,
    Sink, Source, StdSink, StdSource, write_all,
};
use std::alloc::{AllocError, Global};

fn list(alloc: Global, bytes: &[u8]) -> Result<List<u8>, AllocError> {
    let mut items = Vec::new(alloc);
    items.extend_from_slice(bytes)?;
    Ok(List::from_vec(items))
}

// A line between these two.
fn put(out: &mut Vec<u8>, open: u8, line: &[u8], close: u8) -> Result<(), AllocError> {
    out.push(open)?;
    out.extend_from_slice(line)?;
    Ok(out.push(close)?)
}

// What a reader met, each line in brackets.
fn tell(out: &mut Vec<u8>, seen: Result<Found, Failed>, line: &[u8]) -> Result<(), AllocError> {
    match seen {
        Ok(Found::Line) => put(out, b'[', line, b']'),
        Ok(Found::LastLine) => put(out, b'<', line, b'>'),
        Ok(Found::TooLong) => Ok(out.push(b'!')?),
        Ok(Found::End) => Ok(out.push(b'.')?),
        Err(_) => Ok(out.push(b'?')?),
    }
}

fn tell_all<S: Source>(
    out: &mut Vec<u8>,
    reader: &mut LineReader,
    source: &mut S,
) -> Result<(), AllocError> {
    for _ in 0..9u8 {
        let seen = reader.next(source);
        tell(out, seen, reader.line())?;
        if matches!(seen, Ok(Found::TooLong | Found::End)) {
            break;
        }
    }
    Ok(())
}

// Whether a reader hands this out of the source, up to the end or a line that is too long.
fn tells<S: Source>(alloc: Global, source: &mut S, want: &[u8]) -> Result<bool, AllocError> {
    let reader = LineReader::new(alloc).map_err(|_| AllocError);
    let mut reader = reader?;
    let mut out = Vec::new(alloc);
    tell_all(&mut out, &mut reader, source)?;
    Ok(out.as_slice() == want)
}

/// A source that gives at most three bytes at a time.
#[derive(Drop)]
struct Slow {
    inner: MemSource,
}

impl Source for Slow {
    ghost left = { λ s. Some s.inner };

    ghost faults = { λ _. 0 };

    fn read(&mut self, into: &mut [u8]) -> Result<usize, Failed> {
        let most = into.len().min(3);
        self.inner.read(&mut into[..most])
    }
}

fn slow_source(alloc: Global, bytes: &[u8]) -> Result<Slow, AllocError> {
    let inner = MemSource::new(list(alloc, bytes)?);
    Ok(Slow { inner })
}

// Whether a reader hands lines out whole that come in small pieces.
fn lines_come_whole(alloc: Global) -> Result<bool, AllocError> {
    let mut source = slow_source(alloc, b"abcdefg\nhi\n\njklm")?;
    tells(alloc, &mut source, b"[abcdefg][hi][]<jklm>.")
}

// Whether a whole input is read so.
fn all_comes_whole(alloc: Global) -> Result<bool, AllocError> {
    let mut source = slow_source(alloc, b"abcdefg\nhi")?;
    match read_whole(alloc, &mut source, DOCUMENT_LIMIT) {
        Ok(bytes) => Ok(bytes.as_slice() == b"abcdefg\nhi".as_slice()),
        Err(_) => Ok(false),
    }
}

#[test]
fn inputs_come_whole_from_small_pieces(rt: HostRuntime) {
    assert!(rt; lines_come_whole(rt.alloc()) == Ok(true));
    assert!(rt; all_comes_whole(rt.alloc()) == Ok(true));
}

// The plan of failures in which these calls fail.
fn calls(alloc: Global, numbers: &[u64]) -> Result<List<u64>, AllocError> {
    Ok(List::from_vec(Vec::from_slice(alloc, numbers)?))
}

// A source of these bytes, of which these reads fail.
fn fault_source(alloc: Global, bytes: &[u8], numbers: &[u64]) -> Result<FaultSource, AllocError> {
    let (bytes, failing) = beside(list(alloc, bytes)?, calls(alloc, numbers))?;
    Ok(FaultSource::new(bytes, failing))
}

fn fault_tells(
    alloc: Global,
    bytes: &[u8],
    numbers: &[u64],
    want: &[u8],
) -> Result<bool, AllocError> {
    let mut source = fault_source(alloc, bytes, numbers)?;
    tells(alloc, &mut source, want)
}

#[test]
fn a_fault_loses_nothing(rt: HostRuntime) {
    assert!(rt; fault_tells(rt.alloc(), b"a\nb", &[2, 3], b"[a]??<b>.") == Ok(true));
}

// Whether two writes and a flush go through, and the flush alone hands both on.
fn takes_both(sink: &mut MemSink) -> bool {
    let is_written = write_all(sink, b"ab").is_ok() && write_all(sink, b"c").is_ok();
    let is_held = is_written && sink.handed().is_empty() && sink.flush().is_ok();
    is_held && sink.bytes() == b"abc".as_slice() && sink.handed() == b"abc".as_slice()
}

#[test]
fn pieces_are_written_whole(rt: HostRuntime) {
    assert!(rt; takes_both(&mut MemSink::new(rt.alloc())));
}

// Which of two writes and two flushes fail.
fn failing<K: Sink>(sink: &mut K) -> [bool; 4] {
    let writes = [
        write_all(sink, b"ab").is_err(),
        write_all(sink, b"c").is_err(),
    ];
    let flushes = [sink.flush().is_err(), sink.flush().is_err()];
    [writes[0], writes[1], flushes[0], flushes[1]]
}

// Whether the second write and the second flush fail, and the sink has the first.
fn loses_the_second(alloc: Global) -> Result<bool, AllocError> {
    let mut sink = FaultSink::new(alloc, calls(alloc, &[2, 4])?);
    let failed = failing(&mut sink);
    let held = sink.bytes() == b"ab".as_slice() && sink.handed() == b"ab".as_slice();
    drop(sink);
    Ok(held && failed == [false, true, false, true])
}

#[test]
fn a_write_that_fails(rt: HostRuntime) {
    assert!(rt; loses_the_second(rt.alloc()) == Ok(true));
}

// The first three readings of a clock with this list.
fn readings(alloc: Global, times: &[i64]) -> Result<[i64; 3], AllocError> {
    let mut clock = ListClock::new(List::from_vec(Vec::from_slice(alloc, times)?));
    let read = [clock.now(), clock.now(), clock.now()];
    drop(clock);
    Ok(read)
}

#[test]
fn readings_of_a_list(rt: HostRuntime) {
    assert!(rt; readings(rt.alloc(), &[]) == Ok([0, 0, 0]));
    assert!(rt; readings(rt.alloc(), &[7, -5]) == Ok([7, -5, -5]));
}

// Whether it takes a line and a flush.
fn takes_line<K: Sink>(sink: &mut K, line: &[u8]) -> bool {
    write_all(sink, line).is_ok() && sink.flush().is_ok()
}

fn can_read<S: Source>(source: &mut S) -> bool {
    source.read(&mut [0u8; 8]).is_ok()
}

#[test]
fn the_real_clock_shows_a_time_behind_2020(rt: HostRuntime) {
    let mut clock = RealClock::new(&rt);
    assert!(rt; clock.now() > 1_600_000_000_000 && clock.faults() == 0);
}

#[test]
fn real_streams_take_and_give_bytes(rt: HostRuntime) {
    assert!(rt; takes_line(&mut StdSink::new(rt.stdout()), b"out\n"));
    assert!(rt; takes_line(&mut StdSink::new(rt.stderr()), b"err\n"));
    assert!(rt; can_read(&mut StdSource::new(rt.reader())));
}
