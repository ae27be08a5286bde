//! The words of the command line.
use qz_types::{NoMemory, Text};
use std::alloc::Global;
use std::env::{Env, FillError};

/// Bytes of a word: Linux passes no longer one.
const WORD_LIMIT: usize = 131072;

/// The words after the program's name. One that isn't UTF-8 is read as the empty text, which no call knows.
pub fn read_words<R: Env>(alloc: Global, rt: &R) -> Result<Vec<Text>, NoMemory> {
    let mut buffer = vec![in alloc; 0u8; WORD_LIMIT]?;
    let mut words = Vec::new(alloc);
    for place in 1..usize::MAX {
        match rt.arg(place, &mut buffer) {
            Ok(length) => words.push(text_of(alloc, &buffer[..length])?)?,
            Err(FillError::NotPresent) => break,
            Err(FillError::TooLong) => words.push(Text::new(alloc))?,
        }
    }
    Ok(words)
}

fn text_of(alloc: Global, bytes: &[u8]) -> Result<Text, NoMemory> {
    match std::str::from_utf8(bytes) {
        Ok(text) => Ok(Text::from_str(alloc, text)?),
        Err(_) => Ok(Text::new(alloc)),
    }
}
