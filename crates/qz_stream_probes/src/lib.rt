//! Calls of a stream, once more: edits of them show which wrong answers the contracts of these calls refuse.
#![tactic(auto)]

ghost use Rattle.std.specs.Prelude.{◌≡◌};
ghost use Rattle.qz_stream.specs.Standing.{Feeds, Tells, fed_of, header_length_of, payload_of};

use qz_stream::{BadStream, Next, Place, Stream};

/// [`Stream::next`].
pub fn next(stream: &mut Stream, piece: &[u8]) -> Result<Next, BadStream>
    ensures told { Tells result piece.now stream.new }
    ensures fed { Feeds (fed_of result piece.now) stream.old stream.new }
{
    match stream.next(piece) {
        Ok(Next::Payload { used }) => Ok(Next::Payload { used }),
        Ok(Next::More) => Ok(Next::More),
        Ok(Next::Ended) => Ok(Next::Ended),
        Err(BadStream { at }) => Err(BadStream { at }),
    }
}

/// [`Stream::payload`].
pub fn payload(stream: &Stream) -> &[u8]
    requires { stream.now.place ≡ Place.Whole }
    ensures { result.now ≡ payload_of stream.now.tail }
{
    stream.payload()
}

/// [`Stream::gate`].
pub fn gate(stream: &Stream) -> u64
    ensures { result ≡ stream.now.gate }
{
    stream.gate()
}

/// [`Stream::version`].
pub fn version(stream: &Stream) -> Option<u8>
    ensures { result ≡ stream.now.version }
{
    stream.version()
}

/// [`Stream::header_length`].
pub fn header_length(stream: &Stream) -> Option<usize>
    ensures { result ≡ header_length_of stream.now }
{
    stream.header_length()
}

/// [`Stream::place`].
pub fn place(stream: &Stream) -> Place
    ensures { result ≡ stream.now.place }
{
    stream.place()
}
