//! What a writer does.
ghost use Rattle.std.specs.Prelude.{◌≡◌, ℕ, ◌+◌, ◌-◌, ◌≤◌, length, Some, IfOk, OnOk, OnErr, IfSome};
ghost use mathlib.Core.List.{IsPrefix};
ghost use Rattle.qz_board.specs.Posts.{entries_of, basis_of, first_count, later_of};
ghost use Rattle.qz_board.specs.Boards.{posted, offered, writer_basis, writer_board, seen, reader_basis, reader_board, noted, note_board};

use super::steps::{admit, begin, show};
use super::{Board, BoardReader, BoardWriter, Posted};
use crate::page::Page;
use crate::posts::{Front, Grow, Growth, Nothing, Post};
use crate::shown::{Shown, Subject};
use core::mem::replace_with;
use logbook::Offer;
use qz_civil::NoMemory;
use std::alloc::Global;
use std::sync::Wait;

impl Board {
    /// A board that shows this value, its writer and a reader.
    pub fn new<K: Subject, S: Shown<K>, R: Wait>(
        rt: &R,
        alloc: Global,
        from: &S,
    ) -> Result<(BoardWriter<K>, BoardReader<K>), NoMemory>
        ensures writer { IfOk result (λ r. (posted r.0 ≡ S.history from.now) × (offered r.0 ≡ S.history from.now) × (writer_basis r.0 ≡ Some (S.basis from.now))) }
        ensures reader { IfOk result (λ r. (seen r.1 ≡ S.history from.now) × (reader_basis r.1 ≡ Some (S.basis from.now))) }
        ensures board { IfOk result (λ r. reader_board r.1 ≡ writer_board r.0) }
    {
        let (count, page) = Page::first(from);
        let first = page.sheet.glance.entries;
        let seen = Page::over(page.sheet.again());
        let mut writer = begin(rt, alloc, &page.sheet)?;
        let Some(reader) = admit(&mut writer) else {
            writer.take(rt);
            return Err(NoMemory);
        };
        Ok((
            BoardWriter {
                writer,
                last: page,
                count,
                first,
            },
            BoardReader { reader, last: seen },
        ))
    }
}

impl<K: Subject> BoardWriter<K> {
    /// Posts what this value shows. Its history goes on from all that was offered before. Without memory the board shows
    /// what it showed.
    pub fn post<S: Shown<K>, R: Wait>(&mut self, rt: &R, from: &S) -> Result<(), NoMemory>
        requires goes_on { IsPrefix (offered self.old) (S.history from.now) }
        requires basis { writer_basis self.old ≡ Some (S.basis from.now) }
        ensures ok { OnOk result (posted self.new ≡ S.history from.now) }
        ensures err { OnErr result (posted self.new ≡ posted self.old) }
        ensures offered { offered self.new ≡ S.history from.now }
        ensures kept { (writer_basis self.new ≡ writer_basis self.old) × (writer_board self.new ≡ writer_board self.old) }
    {
        let page = self.grow(rt, from);
        let sheet = page.sheet.again();
        self.last = page;
        replace_with(&mut self.writer, (rt, sheet), show::<K, R>)
    }

    // Adds to the posts what the value has further.
    fn grow<S: Shown<K>, R: Wait>(&self, rt: &R, from: &S) -> Page<K>
        requires goes_on { IsPrefix (offered self.now) (S.history from.now) }
        requires basis { writer_basis self.now ≡ Some (S.basis from.now) }
        ensures book { result.sheet.front.book ≡ writer_board self.now }
        ensures basis { basis_of result.sheet.front.log ≡ Some (S.basis from.now) }
        ensures entries { entries_of result.sheet.front.log ≡ S.history from.now }
        ensures first { first_count K.before result.sheet.front.log ≡ first_count K.before self.now.last.sheet.front.log }
    {
        let old = self.last.sheet.glance.entries - self.first;
        let new = from.glance().entries - self.first;
        // Nobody else writes the word, so the first try succeeds. The proof doesn't know that.
        for _ in rt.forever() {
            if let Some(front) = self.try_grow(from, old, new) {
                return Page::of(from, front);
            }
        }
        unreachable!()
    }

    // Adds to the posts what the value has further, where the word still is `old`.
    fn try_grow<S: Shown<K>>(&self, from: &S, old: u64, new: u64) -> Option<Front<K>>
        requires goes_on { IsPrefix (offered self.now) (S.history from.now) }
        requires old { old ≡ length (later_of self.now.last.sheet.front.log) }
        requires new { new + length (offered self.now) ≡ old + length (S.history from.now) }
        ensures book { IfSome result (λ front. front.book ≡ writer_board self.now) }
        ensures basis { IfSome result (λ front. basis_of front.log ≡ writer_basis self.now) }
        ensures entries { IfSome result (λ front. entries_of front.log ≡ S.history from.now) }
        ensures first { IfSome result (λ front. first_count K.before front.log ≡ first_count K.before self.now.last.sheet.front.log) }
    {
        let mut front = self.last.sheet.front.again();
        let mut offer: Offer<Post<K::Entry, K::Ground>, u64, Growth, Nothing> = front.plain::<
            Nothing,
            S,
            Grow<K>,
        >(from);
        let mut pen = front.no_pen();
        let found = self
            .count
            .compare_exchange::<Grow<K>, Nothing>(old, new, &mut front, &mut offer, &mut pen);
        if found == old { Some(front) } else { None }
    }

    /// A note of what was posted, for a reader elsewhere to learn.
    pub fn tell(&self) -> Posted<K>
        ensures noted { noted result ≡ posted self.now }
        ensures board { note_board result ≡ writer_board self.now }
    {
        Posted {
            page: Page::over(self.writer.published().again()),
        }
    }

    /// Ends the board. Its readers see from then on what they saw or were told.
    pub fn close<R: Wait>(self, rt: &R) {
        let BoardWriter {
            writer,
            last: _,
            count: _,
            first: _,
        } = self;
        writer.take(rt);
    }
}
