//! The look at all that there is.
ghost use Rattle.std.specs.Prelude.{◌≡◌, Some, IfOk, OnOk};
ghost use mathlib.Core.List.{IsPrefix};
ghost use Rattle.qz_board.specs.Boards.{offered, writer_basis, writer_board, seen, reader_basis, reader_board};

use qz_board::{BoardReader, BoardWriter, Glance, Shown, Subject};
use qz_civil::NoMemory;
use std::sync::Wait;

/// Posts what this value shows, tells the reader, and looks until a look shows as many entries as there are. `NoMemory` is
/// answered where the post finds none.
pub fn look_at_all<K: Subject, S: Shown<K>, R: Wait>(
    rt: &R,
    writer: &mut BoardWriter<K>,
    reader: &mut BoardReader<K>,
    from: &S,
) -> Result<Glance, NoMemory>
    requires goes_on { IsPrefix (offered writer.old) (S.history from.now) }
    requires basis { (writer_basis writer.old ≡ Some (S.basis from.now)) × (reader_basis reader.old ≡ Some (S.basis from.now)) }
    requires board { reader_board reader.old ≡ writer_board writer.old }
    ensures glance { IfOk result (λ glance. glance ≡ K.glance_of (S.basis from.now) (S.history from.now)) }
    ensures seen { OnOk result (seen reader.new ≡ S.history from.now) }
    ensures later { IsPrefix (seen reader.old) (seen reader.new) }
    ensures offered { offered writer.new ≡ S.history from.now }
    ensures kept { (reader_basis reader.new ≡ reader_basis reader.old) × (reader_board reader.new ≡ reader_board reader.old) }
    ensures kept_writer { (writer_basis writer.new ≡ writer_basis writer.old) × (writer_board writer.new ≡ writer_board writer.old) }
{
    writer.post(rt, from)?;
    reader.learn(writer.tell());
    let all = from.glance().entries;
    Ok(look_until(rt, reader, from, all))
}

// Looks until there are so many entries.
fn look_until<K: Subject, S: Shown<K>, R: Wait>(
    rt: &R,
    reader: &mut BoardReader<K>,
    from: &S,
    all: u64,
) -> Glance
    requires all { all ≡ (K.glance_of (S.basis from.now) (S.history from.now)).entries }
    requires told { IsPrefix (S.history from.now) (seen reader.old) }
    requires basis { reader_basis reader.old ≡ Some (S.basis from.now) }
    ensures glance { result ≡ K.glance_of (S.basis from.now) (S.history from.now) }
    ensures seen { seen reader.new ≡ S.history from.now }
    ensures later { IsPrefix (seen reader.old) (seen reader.new) }
    ensures kept { (reader_basis reader.new ≡ reader_basis reader.old) × (reader_board reader.new ≡ reader_board reader.old) }
{
    for _ in rt.forever() {
        let glance = reader.look();
        if glance.entries == all {
            return glance;
        }
    }
    unreachable!()
}
