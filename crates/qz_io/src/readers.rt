//! Lines of a source, read in blocks.
ghost use Rattle.std.specs.Prelude.{◌≡◌, ◌-◌, ◌<◌, ◌≤◌, IfOk, OnErr, [], length, take, slice_range};
ghost use Rattle.std.specs.Io.KnownBytes.{Keeps};
ghost use Rattle.qz_civil.specs.Causes.{HasCause};
ghost use Rattle.qz_io.specs.Lines.{IsBeforeFeed, GetsAt};

use crate::{LINE_LIMIT, Source};
use memchr::memchr;
use qz_civil::{Failed, NoMemory};
use std::alloc::Global;
use std::marker::Model;

/// The size of a reader's buffer in bytes. A read asks for at least half of it.
const BLOCK: usize = 131072;

/// A law: lines are read in blocks of so many bytes.
pub fn block_of_lines_is()
    ensures { BLOCK ≡ 131072 }
{}

/// What a line reader found next.
#[derive(Clone, Copy, PartialEq, Eq, Debug)]
pub enum Found {
    /// A line, whose line feed was taken too.
    Line,
    /// The last line, which isn't empty and has no line feed after it.
    LastLine,
    /// More than `LINE_LIMIT` bytes without a line feed. They stay where they are.
    TooLong,
    /// The end of the source.
    End,
}

/// Hands out the lines of a source. It reads in blocks into one buffer of 128 KiB, which is all the memory
/// that it takes, looks at each byte once, and lends a line out of the buffer.
///
/// Contracts see it as the line that it handed out last, and the bytes that it took from the source and hasn't handed
/// out. Whoever reads on from the source itself has to begin with these.
#[derive(Drop)]
pub struct LineReader {
    buffer: Vec<u8>,
    /// The last line stands from here ..
    line_start: usize,
    /// .. to here.
    line_end: usize,
    /// The pending bytes stand from here ..
    start: usize,
    /// .. to here.
    end: usize,
    /// No pending byte before this place is a line feed.
    scanned: usize,
}

impl Model for LineReader {
    ghost use Rattle.std.specs.Prelude.{slice_range};
    ghost use Rattle.qz_io.specs.Reading.{ReaderData, IsBuffer};

    ghost Value = { ReaderData };

    ghost view = { λ a. record {
      line = slice_range a.buffer.items a.line_start a.line_end;
      pending = slice_range a.buffer.items a.start a.end;
    } };

    ghost invariant = { λ a. IsBuffer a.buffer.items a.line_start a.line_end a.start a.scanned a.end };
}

/// How many bytes stand before the first line feed.
fn before_feed(bytes: &[u8]) -> usize
    ensures { IsBeforeFeed bytes.now result }
{
    match memchr(b'\n', bytes) {
        Some(place) => place,
        None => bytes.len(),
    }
}

/// Moves the bytes of a range to the front.
fn move_front(buffer: &mut Vec<u8>, start: usize, end: usize)
    requires ordered { start ≤ end }
    requires within { end ≤ length buffer.old.items }
    ensures moved { take (end - start) buffer.new.items ≡ slice_range buffer.old.items start end }
    ensures len { length buffer.new.items ≡ length buffer.old.items }
{
    if 0 < start {
        buffer.copy_within(start..end, 0);
    }
}

/// Reads into a buffer from a place on, and answers how many bytes came.
fn read_behind<S: Source>(source: &mut S, buffer: &mut Vec<u8>, at: usize) -> Result<usize, Failed>
    requires { at < length buffer.old.items }
    ensures got { IfOk result (GetsAt (S.left source.old) (S.left source.new) buffer.new.items at) }
    ensures err { OnErr result (Keeps (S.left source.old) (S.left source.new)) }
    ensures front { take at buffer.new.items ≡ take at buffer.old.items }
    ensures len { length buffer.new.items ≡ length buffer.old.items }
    ensures cause { HasCause (S.faults source.old) (S.faults source.new) result }
{
    source.read(&mut buffer[at..])
}

impl LineReader {
    ghost use Rattle.qz_io.specs.declared.limits.TheConstants.{LINE_LIMIT};
    ghost use Rattle.qz_io.specs.Reading.{Finds, FindsNone, Cuts, Fills, Finishes};

    /// A reader that has taken nothing yet. It takes all its memory here.
    pub fn new(alloc: Global) -> Result<LineReader, NoMemory>
        ensures { IfOk result (λ r. r ≡ record { line = []; pending = [] }) }
    {
        Ok(LineReader {
            buffer: vec![in alloc; 0u8; BLOCK]?,
            line_start: 0,
            line_end: 0,
            start: 0,
            end: 0,
            scanned: 0,
        })
    }

    /// The line that was handed out last, without its line feed: empty where the last call of `next` handed none out.
    pub fn line(&self) -> &[u8]
        ensures { result.now ≡ self.now.line }
    {
        &self.buffer[self.line_start..self.line_end]
    }

    /// Looks for the next line, and reads from the source where the bytes that were taken hold none. A read that
    /// gives nothing is the end, and no call reads on behind it. `Failed` is only answered where a read failed; the
    /// next call goes on where this one stopped.
    pub fn next<S: Source>(&mut self, source: &mut S) -> Result<Found, Failed>
        ensures found { IfOk result (λ found. Finds found (S.left source.old) (S.left source.new) self.old.pending self.new) }
        ensures failed { OnErr result (FindsNone (S.left source.old) (S.left source.new) self.old.pending self.new) }
        ensures cause { HasCause (S.faults source.old) (S.faults source.new) result }
    {
        loop {
            if let Some(found) = self.cut() {
                return Ok(found);
            }
            if self.fill(source)? == 0 {
                return Ok(self.finish());
            }
        }
    }

    /// Hands out the first line of the pending bytes, where a whole one stands there that isn't too long.
    fn cut(&mut self) -> Option<Found>
        ensures { Cuts result self.old.pending self.new }
    {
        let stop = self.scanned + before_feed(&self.buffer[self.scanned..self.end]);
        self.line_start = self.start;
        self.line_end = self.start;
        self.scanned = stop;
        if stop - self.start > LINE_LIMIT {
            return Some(Found::TooLong);
        }
        if stop == self.end {
            return None;
        }
        self.line_end = stop;
        self.start = stop + 1;
        self.scanned = stop + 1;
        Some(Found::Line)
    }

    /// Puts bytes of the source behind the pending ones, and answers how many.
    fn fill<S: Source>(&mut self, source: &mut S) -> Result<usize, Failed>
        requires { length self.old.pending ≤ LINE_LIMIT }
        ensures got { IfOk result (Fills (S.left source.old) (S.left source.new) self.old.pending self.new) }
        ensures err { OnErr result (Keeps (S.left source.old) (S.left source.new) × (self.new.pending ≡ self.old.pending) × (self.new.line ≡ [])) }
        ensures cause { HasCause (S.faults source.old) (S.faults source.new) result }
    {
        move_front(&mut self.buffer, self.start, self.end);
        self.line_start = 0;
        self.line_end = 0;
        self.scanned -= self.start;
        self.end -= self.start;
        self.start = 0;
        let count = read_behind(source, &mut self.buffer, self.end)?;
        self.end += count;
        Ok(count)
    }

    /// Hands out what is pending at the end of the source.
    fn finish(&mut self) -> Found
        ensures { Finishes result self.old.pending self.new }
    {
        self.line_start = self.start;
        self.line_end = self.end;
        self.start = self.end;
        self.scanned = self.end;
        if self.line_start == self.line_end {
            Found::End
        } else {
            Found::LastLine
        }
    }
}
