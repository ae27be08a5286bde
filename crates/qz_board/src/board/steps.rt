//! The steps on the two copies of what is shown.
ghost use Rattle.std.specs.Prelude.{◌≡◌, [], drop, Some, IsSome, IfSome, IfOk, OnOk, OnErr};
ghost use Rattle.left_right.specs.Sides.{view};
ghost use Rattle.logbook.specs.Pages.{Book};
ghost use Rattle.qz_board.specs.Pages.{IsTrue};

use super::{Looker, Publisher, SheetOf};
use crate::page::Page;
use crate::rule::{Begins, Sees, Tells};
use crate::shown::Subject;
use left_right::writer::Writer;
use qz_civil::NoMemory;
use std::alloc::Global;
use std::sync::Wait;

// What shows this sheet, and knows it.
pub(super) fn begin<K: Subject, R: Wait>(
    rt: &R,
    alloc: Global,
    sheet: &SheetOf<K>,
) -> Result<Publisher<K>, NoMemory>
    requires { IsTrue K.glance_of sheet.now }
    ensures shown { IfOk result (λ w. w.desk.shown.value ≡ sheet.now) }
    ensures idle { IfOk result (λ w. drop w.behind w.log.items ≡ []) }
    ensures view { IfOk result (λ w. view w.desk.place ≡ Some sheet.now) }
{
    let writer = Writer::new(alloc, sheet.again(), sheet.again(), 1)?;
    // Publishing can't fail, since a sheet takes no memory.
    let (writer, _) = writer.publish_as::<Sees<K>, R>(rt);
    Ok(writer)
}

// A reader that knows what the writer knows.
pub(super) fn admit<K: Subject>(writer: &mut Publisher<K>) -> Option<Looker<K>>
    ensures shown { writer.new.desk.shown ≡ writer.old.desk.shown }
    ensures idle { (writer.new.log ≡ writer.old.log) × (writer.new.behind ≡ writer.old.behind) }
    ensures view { IfSome result (λ r. view r.place ≡ view writer.old.desk.place) }
{
    let mut reader = writer.factory().reader().ok()?;
    reader.learn::<Begins>(writer.tell::<Tells>());
    Some(reader)
}

// Shows a sheet in the place of the one before.
pub(super) fn show<K: Subject, R: Wait>(
    writer: Publisher<K>,
    next: (&R, SheetOf<K>),
) -> (Publisher<K>, Result<(), NoMemory>)
    requires idle { drop writer.behind writer.log.items ≡ [] }
    requires shows { IsTrue K.glance_of next.1 }
    requires book { next.1.front.book ≡ writer.desk.shown.value.front.book }
    ensures idle { OnOk result.1 (drop result.0.behind result.0.log.items ≡ []) }
    ensures still { OnErr result.1 (drop result.0.behind result.0.log.items ≡ []) }
    ensures ok { OnOk result.1 (result.0.desk.shown.value ≡ next.entry.1) }
    ensures err { OnErr result.1 (result.0.desk.shown.value ≡ writer.desk.shown.value) }
{
    let mut writer = writer;
    let (rt, sheet) = next;
    match writer.append(sheet) {
        Ok(()) => {
            // Publishing can't fail, since a sheet takes no memory.
            let (writer, _) = writer.publish_as::<Sees<K>, R>(rt);
            (writer, Ok(()))
        }
        Err(_) => (writer, Err(NoMemory)),
    }
}

// Reads the sheet that is shown now. There is none where the writer was closed.
pub(super) fn read<K: Subject>(reader: Looker<K>, _nothing: ()) -> (Looker<K>, Option<Page<K>>)
    requires { IsSome (view reader.place) }
    ensures knows { IsSome (view result.0.place) }
    ensures same { (book : Book) → IfSome (view reader.place) (λ sheet. sheet.front.book ≡ book) → IfSome (view result.0.place) (λ sheet. sheet.front.book ≡ book) }
    ensures page { (book : Book) → IfSome (view reader.place) (λ sheet. sheet.front.book ≡ book) → IfSome result.1 (λ page. page.sheet.front.book ≡ book) }
{
    match reader.enter_as::<Sees<K>>() {
        Ok(reading) => {
            let page = Page::over(reading.get().again());
            (reading.leave(), Some(page))
        }
        Err(reader) => (reader, None),
    }
}
