//! How the lines of an input end.
use qz_job_json::LineFault;

/// Why no line after this one is answered.
#[derive(Clone, Copy)]
pub(crate) enum LineEnd {
    /// The line is bad.
    Bad(LineFault),
    /// The output failed before the line's answer was whole.
    WriteFault,
    /// Nothing is said to the line.
    NoMemory,
}

/// How the lines of an input ended. The first cause that was met is answered.
#[derive(Clone, Copy, PartialEq, Eq, Debug)]
pub enum TimesEnd {
    /// All lines were answered, and the answers were handed on.
    Done,
    /// The line of this number, from 1, is bad. The lines before it were answered.
    Bad { line: u64, fault: LineFault },
    /// A line begins after the last one that an input may have. All before it were answered.
    TooManyLines,
    /// A read of the input failed. Each line whose line feed was read was answered.
    ReadFault,
    /// A write of the output failed, or the flush after the last line.
    WriteFault,
    /// Memory ran out.
    NoMemory,
}
