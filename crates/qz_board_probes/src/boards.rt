//! The calls of a board's writer and of its readers.
ghost use Rattle.std.specs.Prelude.{◌≡◌, ◌⊎◌, Some, IfOk, OnOk, OnErr};
ghost use mathlib.Core.List.{IsPrefix};
ghost use Rattle.qz_board.specs.Posts.{Shows};
ghost use Rattle.qz_board.specs.Boards.{posted, offered, writer_basis, writer_board, seen, reader_basis, reader_board, noted, note_board};

use qz_board::{BoardReader, BoardWriter, Glance, Posted, Shown, Subject};
use qz_civil::NoMemory;
use std::sync::Wait;

/// [`BoardReader::look`].
pub fn look<K: Subject>(reader: &mut BoardReader<K>) -> Glance
    ensures glance { Shows K.glance_of (reader_basis reader.new) (seen reader.new) result }
    ensures later { IsPrefix (seen reader.old) (seen reader.new) }
    ensures kept { (reader_basis reader.new ≡ reader_basis reader.old) × (reader_board reader.new ≡ reader_board reader.old) }
{
    let shown = reader.look();
    shown
}

/// [`BoardReader::learn`].
pub fn learn<K: Subject>(reader: &mut BoardReader<K>, posted: Posted<K>)
    requires board { note_board posted ≡ reader_board reader.old }
    ensures told { IsPrefix (noted posted) (seen reader.new) }
    ensures later { IsPrefix (seen reader.old) (seen reader.new) }
    ensures one { (seen reader.new ≡ noted posted) ⊎ (seen reader.new ≡ seen reader.old) }
    ensures kept { (reader_basis reader.new ≡ reader_basis reader.old) × (reader_board reader.new ≡ reader_board reader.old) }
{
    reader.learn(posted);
}

/// [`BoardWriter::post`].
pub fn post<K: Subject, S: Shown<K>, R: Wait>(
    rt: &R,
    writer: &mut BoardWriter<K>,
    from: &S,
) -> Result<(), NoMemory>
    requires goes_on { IsPrefix (offered writer.old) (S.history from.now) }
    requires basis { writer_basis writer.old ≡ Some (S.basis from.now) }
    ensures ok { OnOk result (posted writer.new ≡ S.history from.now) }
    ensures err { OnErr result (posted writer.new ≡ posted writer.old) }
    ensures offered { offered writer.new ≡ S.history from.now }
    ensures kept { (writer_basis writer.new ≡ writer_basis writer.old) × (writer_board writer.new ≡ writer_board writer.old) }
{
    let answer = writer.post(rt, from);
    answer
}
