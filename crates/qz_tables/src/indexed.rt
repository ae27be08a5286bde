//! The rows of one kind: a slab, and the slots of its rows in the order of their ids.
ghost use Rattle.std.specs.List.{remove};
ghost use Rattle.std.specs.Prelude.{Bool, true, not, filter, slice_index_or, slice_get, ◌≢◌, IfNone, option_map, [], ◌≡◌, ◌+◌, ◌≤◌, ◌<◌, ℕ, Some, None, IfSome, IfOk, IfErr, OnOk, OnErr, IsOk, IsSome, IsSomeAnd, OnSome, option_copied, length, map, min, ◌-◌};
ghost use Rattle.std.specs.Ordering.{is_gt, is_eq};
ghost use Rattle.slab.specs.Slab.{get, slab_len};
ghost use Rattle.qz_types.specs.Sorted.{place_of, row_of, put, IsAscending};
ghost use Rattle.qz_tables.specs.Changes.{changed_nth};
ghost use Rattle.qz_tables.specs.Ids.{changed_at, without};
ghost use Rattle.qz_tables.specs.Once.{AreOnce};
ghost use Rattle.qz_tables.specs.Slots.{rows_at, AreFilled, IsFound, IsAbsent, IsWritten};

use crate::guesses::{Guesses, Marked};
use qz_types::Keyed;
use slab::Slab;
use std::alloc::{AllocError, Global};
use std::cmp::Ordering;
use std::marker::Model;
use std::mem;

/// A change of a row in place, which keeps its id.
pub trait Edit<R: Keyed> {
    ghost edited: { Self → R → R };

    // it makes a valid row of this one
    ghost IsFit: { Self → R → Type 0 };

    fn edit(&self, row: &mut R)
        requires { IsFit self.now row.old }
        ensures { row.new ≡ edited self.now row.old };

    ghost keeps_id: { (e : Self) → (r : R) → R.id (edited e r) ≡ R.id r };
}

/// A test of a row.
pub trait Test<R: Keyed> {
    ghost test: { Self → R → Bool };

    fn passes(&self, row: &R) -> bool
        ensures { result ≡ test self.now row.now };
}

/// The rows of one kind, in the order of their ids. A row is looked for in the slot that its mark names, and found by
/// binary search if it isn't there. It stays in its slot while it is stored, so an insertion or a removal moves no row, and
/// of each other row at most the number of its slot.
#[derive(Drop)]
pub struct Indexed<R: Marked> {
    rows: Slab<R>,
    order: Vec<usize>,
    guesses: Guesses,
}

impl<R: Marked> Model for Indexed<R> {
    ghost use Rattle.std.specs.Prelude.{◌-◌, min, vec_len};
    ghost use Rattle.std.specs.Vec.{vec_capacity};
    ghost use Rattle.slab.specs.Slab.{slab_len};
    ghost use Rattle.qz_types.specs.Sorted.{IsAscending};
    ghost use Rattle.qz_tables.specs.Slots.{rows_at, AreFilled, Kept};
    ghost use Rattle.qz_tables.specs.Once.{AreOnce};

    ghost Value = { Kept R };

    ghost view = { λ a. record {
      rows = rows_at a.rows.slots a.order.items;
      slots = a.rows.slots;
      order = a.order.items;
      spare = min (a.rows.capacity - slab_len a.rows) (vec_capacity a.order - vec_len a.order);
    } };

    ghost invariant = { λ a. IsAscending R.Id.cmp R.id (rows_at a.rows.slots a.order.items) × AreFilled a.rows.slots a.order.items × AreOnce a.rows.slots a.order.items };
}

// Whether the id comes after that of the row at this slot.
fn is_after<R: Keyed>(rows: &Slab<R>, slot: usize, id: &R::Id) -> bool
    requires { IsSome (get rows.now slot) }
    ensures { IfSome (get rows.now slot) (λ r. result ≡ is_gt (R.Id.cmp id.now (R.id r))) }
{
    let Some(row) = rows.get(slot) else {
        unreachable!()
    };
    id.cmp(row.id()) == Ordering::Greater
}

// Where a row of this id stands, or would be put.
fn place<R: Keyed>(rows: &Slab<R>, order: &[usize], id: &R::Id) -> usize
    requires filled { AreFilled rows.now.slots order.now }
    requires ascending { IsAscending R.Id.cmp R.id (rows_at rows.now.slots order.now) }
    ensures { result ≡ place_of R.Id.cmp R.id id.now (rows_at rows.now.slots order.now) }
{
    let mut low = 0;
    let mut high = order.len();
    while low < high {
        let middle = low + (high - low) / 2;
        if is_after(rows, order[middle], id) {
            low = middle + 1;
        } else {
            high = middle;
        }
    }
    low
}

// Whether the row at this slot has the id.
fn is_at<R: Keyed>(rows: &Slab<R>, slot: usize, id: &R::Id) -> bool
    requires { IsSome (get rows.now slot) }
    ensures { IfSome (get rows.now slot) (λ r. result ≡ is_eq (R.Id.cmp id.now (R.id r))) }
{
    let Some(row) = rows.get(slot) else {
        unreachable!()
    };
    id.cmp(row.id()) == Ordering::Equal
}

// The place of the row of this id.
fn find<R: Keyed>(rows: &Slab<R>, order: &[usize], id: &R::Id) -> Option<usize>
    requires filled { AreFilled rows.now.slots order.now }
    requires ascending { IsAscending R.Id.cmp R.id (rows_at rows.now.slots order.now) }
    ensures found { IfSome result (IsFound R.Id.cmp R.id rows.now.slots order.now id.now) }
    ensures absent { IfNone result (IsAbsent R.Id.cmp R.id rows.now.slots order.now id.now) }
{
    let at = place(rows, order, id);
    if at == order.len() {
        return None;
    }
    if is_at(rows, order[at], id) {
        Some(at)
    } else {
        None
    }
}

// The slot of the row of this id, by the order alone.
fn find_slot<R: Keyed>(rows: &Slab<R>, order: &[usize], id: &R::Id) -> Option<usize>
    requires filled { AreFilled rows.now.slots order.now }
    requires ascending { IsAscending R.Id.cmp R.id (rows_at rows.now.slots order.now) }
    ensures found { IfSome result (λ s. slice_index_or rows.now.slots s None ≡ row_of R.Id.cmp R.id id.now (rows_at rows.now.slots order.now)) }
    ensures filled { IfSome result (λ s. IsSome (slice_index_or rows.now.slots s None)) }
    ensures none { IfNone result (row_of R.Id.cmp R.id id.now (rows_at rows.now.slots order.now) ≡ None) }
{
    match find(rows, order, id) {
        Some(at) => Some(order[at]),
        None => None,
    }
}

// The slot that was noted for the mark of this id, if the row there has the id.
fn guess<R: Marked>(rows: &Slab<R>, guesses: &Guesses, id: &R::Id) -> Option<usize>
    ensures { IfSome result (λ s. IsSomeAnd (get rows.now s) (λ r. is_eq (R.Id.cmp id.now (R.id r)) ≡ true)) }
{
    let slot = guesses.get(R::mark(id))?;
    match rows.get(slot) {
        Some(row) if id.cmp(row.id()) == Ordering::Equal => Some(slot),
        _ => None,
    }
}

// Notes the slot of each row anew, if no mark more can be noted.
fn renew<R: Marked>(rows: &Slab<R>, order: &[usize], guesses: &mut Guesses) {
    if !guesses.is_full() {
        return;
    }
    guesses.clear();
    for slot in order {
        if let Some(row) = rows.get(*slot) {
            guesses.note(R::mark(row.id()), *slot);
        }
    }
}

fn slot_at(order: &[usize], place: usize) -> usize
    requires { place < length order.now }
    ensures { result ≡ slice_index_or order.now place 0 }
{
    order[place]
}

// The rows at these slots.
fn collect<'a, R: Keyed>(
    alloc: Global,
    rows: &'a Slab<R>,
    order: &[usize],
) -> Result<Vec<&'a R>, AllocError>
    requires { AreFilled rows.now.slots order.now }
    ensures { IfOk result (λ v. map (λ r. r.now) v.items ≡ rows_at rows.now.slots order.now) }
{
    let mut list = Vec::with_capacity(alloc, order.len())?;
    for slot in order {
        match rows.get(*slot) {
            Some(row) => list.push(row)?,
            None => unreachable!(),
        }
    }
    Ok(list)
}

impl<R: Marked> Indexed<R> {
    /// No rows.
    pub fn new(alloc: Global) -> Self
        ensures rows { result.rows ≡ [] }
        ensures slots { result.slots ≡ [] }
    {
        Indexed {
            rows: Slab::new(alloc),
            order: Vec::new(alloc),
            guesses: Guesses::new(alloc),
        }
    }

    /// The row of this id.
    pub fn get(&self, id: &R::Id) -> Option<&R>
        ensures row { option_copied result ≡ row_of R.Id.cmp R.id id.now self.now.rows }
        ensures sorted { IsAscending R.Id.cmp R.id self.now.rows }
    {
        match self.slot(id) {
            Some(slot) => self.rows.get(slot),
            None => None,
        }
    }

    /// The slot of the row of this id. The guess is looked at first, and then the order.
    pub fn slot(&self, id: &R::Id) -> Option<usize>
        ensures found { IfSome result (λ s. slice_index_or self.now.slots s None ≡ row_of R.Id.cmp R.id id.now self.now.rows) }
        ensures filled { IfSome result (λ s. IsSome (slice_index_or self.now.slots s None)) }
        ensures none { IfNone result (row_of R.Id.cmp R.id id.now self.now.rows ≡ None) }
    {
        match guess(&self.rows, &self.guesses, id) {
            Some(slot) => Some(slot),
            None => find_slot(&self.rows, &self.order, id),
        }
    }

    /// The row in this slot.
    pub fn at(&self, slot: usize) -> Option<&R>
        ensures { option_copied result ≡ slice_index_or self.now.slots slot None }
    {
        self.rows.get(slot)
    }

    /// The slot of the row at this place in the order of the ids, counted from 0.
    pub fn slot_nth(&self, place: usize) -> usize
        requires { place < length self.now.rows }
        ensures { slice_index_or self.now.slots result None ≡ slice_get self.now.rows place }
    {
        slot_at(&self.order, place)
    }

    /// The place of the row in this slot in the order of the ids, counted from 0.
    pub fn place_at(&self, slot: usize) -> usize
        requires { IsSome (slice_index_or self.now.slots slot None) }
        ensures within { result < length self.now.rows }
        ensures row { slice_get self.now.rows result ≡ slice_index_or self.now.slots slot None }
    {
        let Some(row) = self.rows.get(slot) else {
            unreachable!()
        };
        let Some(place) = find(&self.rows, &self.order, row.id()) else {
            unreachable!()
        };
        place
    }

    /// For how many rows more there is memory.
    pub fn spare(&self) -> usize
        ensures { result ≡ self.now.spare }
    {
        let slots = self.rows.capacity() - self.rows.len();
        let places = self.order.capacity() - self.order.len();
        slots.min(places)
    }

    /// How many slots there are, those included that have no row.
    pub fn places(&self) -> usize {
        self.rows.capacity()
    }

    /// Does nothing. Its contract says how rows and slots go together: a row in a slot is found by its id, no two slots
    /// have rows of one id, each row has a slot, and the slots stand in the order of the rows.
    pub fn laws(&self)
        ensures whole { (s : ℕ) (r : R) → slice_index_or self.now.slots s None ≡ Some r → row_of R.Id.cmp R.id (R.id r) self.now.rows ≡ Some r }
        ensures apart { (s t : ℕ) (r q : R) → slice_index_or self.now.slots s None ≡ Some r → slice_index_or self.now.slots t None ≡ Some q → is_eq (R.Id.cmp (R.id r) (R.id q)) ≡ true → s ≡ t }
        ensures listed { (k : R.Id) (r : R) → row_of R.Id.cmp R.id k self.now.rows ≡ Some r → (s : ℕ) × (slice_index_or self.now.slots s None ≡ Some r) }
        ensures sorted { IsAscending R.Id.cmp R.id self.now.rows }
        ensures placed { self.now.rows ≡ rows_at self.now.slots self.now.order }
        ensures once { AreOnce self.now.slots self.now.order }
    {
        let _ = &self.rows;
    }

    /// The row at this place in the order of the ids, counted from 0.
    pub fn nth(&self, place: usize) -> Option<&R>
        ensures { option_copied result ≡ slice_get self.now.rows place }
    {
        match self.order.get(place) {
            Some(slot) => self.rows.get(*slot),
            None => None,
        }
    }

    /// How many rows there are.
    pub fn len(&self) -> usize
        ensures { result ≡ length self.now.rows }
    {
        let slots = self.order.as_slice();
        slots.len()
    }

    /// The rows in the order of their ids.
    pub fn sorted(&self, alloc: Global) -> Result<Vec<&R>, AllocError>
        ensures { IfOk result (λ v. map (λ r. r.now) v.items ≡ self.now.rows) }
    {
        collect(alloc, &self.rows, &self.order)
    }

    /// Makes room for so many rows more.
    pub fn reserve(&mut self, more: usize) -> Result<(), AllocError>
        ensures rows { self.new.rows ≡ self.old.rows }
        ensures slots { self.new.slots ≡ self.old.slots }
        ensures room { OnOk result (more ≤ self.new.spare) }
        ensures succeeds { more ≤ self.old.spare → IsOk result }
        ensures spare { self.old.spare ≤ self.new.spare }
    {
        if self.rows.capacity() - self.rows.len() < more {
            self.rows.reserve(more)?;
            self.guesses.reserve(self.rows.capacity())?;
        }
        self.order.reserve(more)
    }

    /// Puts in a row of a new id, in the room that is left, and gives its slot.
    pub fn insert(&mut self, row: R) -> usize
        requires absent { row_of R.Id.cmp R.id (R.id row) self.old.rows ≡ None }
        requires room { 0 < self.old.spare }
        ensures rows { self.new.rows ≡ put R.Id.cmp R.id row self.old.rows }
        ensures spare { self.old.spare ≤ self.new.spare + 1 }
        ensures vacant { slice_index_or self.old.slots result None ≡ None }
        ensures slot { IsWritten self.old.slots self.new.slots result (Some row) }
    {
        let at = place(&self.rows, &self.order, row.id());
        let mark = R::mark(row.id());
        let slot = self.rows.insert_reserved(row);
        let Ok(()) = self.order.insert(at, slot) else {
            unreachable!()
        };
        renew(&self.rows, &self.order, &mut self.guesses);
        self.guesses.note(mark, slot);
        slot
    }

    /// Takes out the row of this id, with the slot that it had.
    pub fn take(&mut self, id: &R::Id) -> Option<(usize, R)>
        ensures row { option_map (λ p. p.1) result ≡ row_of R.Id.cmp R.id id.now self.old.rows }
        ensures slot { IfSome result (λ p. IsWritten self.old.slots self.new.slots p.0 None) }
        ensures was { IfSome result (λ p. slice_index_or self.old.slots p.0 None ≡ Some p.1) }
        ensures none { IfNone result (self.new ≡ self.old) }
        ensures rows { self.new.rows ≡ without R.Id.cmp R.id id.now self.old.rows }
        ensures sorted { IsAscending R.Id.cmp R.id self.old.rows }
        ensures freed { OnSome result (self.old.spare + 1 ≤ self.new.spare) }
        ensures spare { self.old.spare ≤ self.new.spare }
    {
        match find(&self.rows, &self.order, id) {
            Some(at) => {
                let slot = self.order.remove(at);
                match self.rows.try_remove(slot) {
                    Some(row) => {
                        self.guesses.forget(R::mark(id), slot);
                        Some((slot, row))
                    }
                    None => unreachable!(),
                }
            }
            None => None,
        }
    }

    /// Takes out the row of this id.
    pub fn remove(&mut self, id: &R::Id) -> Option<R>
        ensures row { result ≡ row_of R.Id.cmp R.id id.now self.old.rows }
        ensures none { IfNone result (self.new ≡ self.old) }
        ensures rows { self.new.rows ≡ without R.Id.cmp R.id id.now self.old.rows }
        ensures sorted { IsAscending R.Id.cmp R.id self.old.rows }
        ensures freed { OnSome result (self.old.spare + 1 ≤ self.new.spare) }
        ensures spare { self.old.spare ≤ self.new.spare }
    {
        match self.take(id) {
            Some((_, row)) => Some(row),
            None => None,
        }
    }

    /// Puts a row in place of that of its id, and gives the old one, with the slot.
    pub fn change(&mut self, row: R) -> (usize, R)
        requires { IsSome (row_of R.Id.cmp R.id (R.id row) self.old.rows) }
        ensures row { Some result.1 ≡ row_of R.Id.cmp R.id (R.id row) self.old.rows }
        ensures rows { self.new.rows ≡ changed_at R.Id.cmp R.id (R.id row) (λ _. row) self.old.rows }
        ensures slot { IsWritten self.old.slots self.new.slots result.0 (Some row) }
        ensures was { slice_index_or self.old.slots result.0 None ≡ Some result.1 }
        ensures spare { self.new.spare ≡ self.old.spare }
    {
        let Some(at) = find(&self.rows, &self.order, row.id()) else {
            unreachable!()
        };
        let slot = self.order[at];
        let Some(place) = self.rows.get_mut(slot) else {
            unreachable!()
        };
        (slot, mem::replace(place, row))
    }

    /// Changes the row of this id in place, if it is stored, and gives its slot.
    pub fn edit<E: Edit<R>>(&mut self, id: &R::Id, edit: &E) -> Option<usize>
        requires { (row : R) → row_of R.Id.cmp R.id id.now self.old.rows ≡ Some row → E.IsFit edit.now row }
        ensures rows { self.new.rows ≡ changed_at R.Id.cmp R.id id.now (E.edited edit.now) self.old.rows }
        ensures was { IfSome result (λ s. slice_index_or self.old.slots s None ≡ row_of R.Id.cmp R.id id.now self.old.rows) }
        ensures filled { IfSome result (λ s. IsSome (slice_index_or self.old.slots s None)) }
        ensures slot { IfSome result (λ s. IsWritten self.old.slots self.new.slots s (option_map (E.edited edit.now) (slice_index_or self.old.slots s None))) }
        ensures none { IfNone result (self.new ≡ self.old) }
        ensures spare { self.new.spare ≡ self.old.spare }
    {
        let slot = self.slot(id)?;
        let Some(row) = self.rows.get_mut(slot) else {
            unreachable!()
        };
        edit.edit(row);
        Some(slot)
    }

    /// Changes the row in this slot.
    pub fn edit_slot<E: Edit<R>>(&mut self, slot: usize, edit: &E)
        requires present { IsSome (slice_index_or self.old.slots slot None) }
        requires fit { IfSome (slice_index_or self.old.slots slot None) (E.IsFit edit.now) }
        ensures slot { IsWritten self.old.slots self.new.slots slot (option_map (E.edited edit.now) (slice_index_or self.old.slots slot None)) }
        ensures order { self.new.order ≡ self.old.order }
        ensures spare { self.new.spare ≡ self.old.spare }
    {
        let Some(row) = self.rows.get_mut(slot) else {
            unreachable!()
        };
        edit.edit(row);
    }

    /// Whether the row at this place passes.
    pub fn passes_nth<T: Test<R>>(&self, place: usize, test: &T) -> bool
        ensures { IfSome (slice_get self.now.rows place) (λ row. result ≡ T.test test.now row) }
    {
        match self.nth(place) {
            Some(row) => test.passes(row),
            None => false,
        }
    }

    /// Changes the row at this place, counted from 0, and gives its slot.
    pub fn edit_nth<E: Edit<R>>(&mut self, place: usize, edit: &E) -> usize
        requires present { place < length self.old.rows }
        requires fit { (row : R) → slice_get self.old.rows place ≡ Some row → E.IsFit edit.now row }
        ensures rows { self.new.rows ≡ changed_nth (E.edited edit.now) place self.old.rows }
        ensures was { slice_index_or self.old.slots result None ≡ slice_get self.old.rows place }
        ensures slot { IsWritten self.old.slots self.new.slots result (option_map (E.edited edit.now) (slice_index_or self.old.slots result None)) }
        ensures spare { self.new.spare ≡ self.old.spare }
    {
        let slot = slot_at(&self.order, place);
        let Some(row) = self.rows.get_mut(slot) else {
            unreachable!()
        };
        edit.edit(row);
        slot
    }

    /// Changes each row in place.
    pub fn edit_all<E: Edit<R>>(&mut self, edit: &E)
        requires { (row : R) → E.IsFit edit.now row }
        ensures rows { self.new.rows ≡ map (E.edited edit.now) self.old.rows }
        ensures spare { self.old.spare ≤ self.new.spare }
    {
        let count = self.len();
        let mut place = 0;
        while place < count {
            self.edit_nth(place, edit);
            place += 1;
        }
    }

    /// Takes out the row at this place, counted from 0, with the slot that it had.
    pub fn take_nth(&mut self, place: usize) -> (usize, R)
        requires { place < length self.old.rows }
        ensures row { Some result.1 ≡ slice_get self.old.rows place }
        ensures rows { self.new.rows ≡ remove self.old.rows place }
        ensures slot { IsWritten self.old.slots self.new.slots result.0 None }
        ensures was { slice_index_or self.old.slots result.0 None ≡ Some result.1 }
        ensures spare { self.old.spare ≤ self.new.spare }
    {
        let slot = slot_at(&self.order, place);
        self.order.remove(place);
        match self.rows.try_remove(slot) {
            Some(row) => {
                self.guesses.forget(R::mark(row.id()), slot);
                (slot, row)
            }
            None => unreachable!(),
        }
    }
}

impl<R: Marked + Drop> Indexed<R> {
    /// Takes out the rows that pass.
    pub fn remove_all<T: Test<R>>(&mut self, test: &T)
        ensures rows { self.new.rows ≡ filter (λ row. not (T.test test.now row)) self.old.rows }
        ensures spare { self.old.spare ≤ self.new.spare }
    {
        let mut place = self.len();
        while place > 0 {
            place -= 1;
            if self.passes_nth(place, test) {
                drop(self.take_nth(place));
            }
        }
    }
}
