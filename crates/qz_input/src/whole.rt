//! Reads a source to its end.
ghost use Rattle.std.specs.Prelude.{◌≡◌, ◌≤◌, Err};
ghost use Rattle.qz_civil.specs.Causes.{Rose};
ghost use Rattle.qz_input.specs.Whole.{ReadsWhole};

use qz_civil::List;
use qz_io::Source;
use std::alloc::Global;
use thiserror::Error;

/// How many bytes one read asks for.
const BLOCK: usize = 65536;

/// A law: a whole input is read in blocks of so many bytes.
pub fn block_of_whole_is()
    ensures { BLOCK ≡ 65536 }
{}

/// Why an input wasn't read to its end.
#[derive(Clone, Copy, PartialEq, Eq, Debug, Error)]
pub enum ReadWholeError {
    /// A read failed, and the source's count of faults rose.
    #[error("read fault")]
    Failed,
    /// The input has more bytes than the limit.
    #[error("too long")]
    TooLong,
    /// Memory ran out.
    #[error("no memory")]
    NoMemory,
}

/// Reads an input to its end, in blocks. `limit` is the greatest number of bytes that it may have.
///
/// `Failed` is only answered where a read failed. `TooLong` is answered where the input has more than `limit` bytes: at
/// most one block behind the limit was read. After an error the bytes that were read are lost.
pub fn read_whole<S: Source>(
    alloc: Global,
    input: &mut S,
    limit: usize,
) -> Result<List<u8>, ReadWholeError>
    ensures whole { ReadsWhole result limit (S.left input.old) (S.left input.new) }
    ensures reads { S.faults input.old ≤ S.faults input.new }
    ensures failed { result ≡ Err ReadWholeError.Failed → Rose (S.faults input.old) (S.faults input.new) }
{
    let mut block = [0u8; BLOCK];
    let mut bytes = Vec::new(alloc);
    while bytes.len() <= limit {
        let count = match input.read(&mut block) {
            Ok(count) => count,
            Err(_) => return Err(ReadWholeError::Failed),
        };
        if count == 0 {
            return Ok(List::from_vec(bytes));
        }
        match bytes.extend_from_slice(&block[..count]) {
            Ok(()) => {}
            Err(_) => return Err(ReadWholeError::NoMemory),
        }
    }
    Err(ReadWholeError::TooLong)
}
