//! Calls of the lock, once more: edits of them show which wrong answers the contracts of these calls refuse.
#![tactic(auto)]

ghost use Rattle.std.specs.Prelude.{◌≡◌, ℕ, ◌+◌, ◌-◌, ◌/◌, ◌≤◌, ◌++◌, [], ◌∷◌, true, false};
ghost use mathlib.Core.List.{IsPrefix};
ghost use Rattle.qz_row_lock.specs.Views.{times, entries_of};
ghost use Rattle.qz_row_lock.specs.Seats.{IsOf, IsNoteOf, Keeps, noted, seen, mine, ids, shut, is_out};

use qz_row_lock::{Logged, Note, RowLock, Seat};

/// [`RowLock::split`].
pub fn split<V: Logged>(lock: &RowLock<V>, seat: Seat<V>) -> (Seat<V>, Seat<V>)
    requires of { IsOf lock.now seat }
    requires home { is_out seat ≡ false }
    requires more { 1 ≤ seat.more }
    ensures of { IsOf lock.now result.0 × IsOf lock.now result.1 }
    ensures home { (is_out result.0 ≡ false) × (is_out result.1 ≡ false) }
    ensures seen { (seen result.0 ≡ seen seat) × IsPrefix (seen seat) (seen result.1) }
    ensures first { (result.0.number ≡ seat.number) × (ids result.0 ≡ ids seat) × (mine result.0 ≡ mine seat) }
    ensures second { (result.1.number ≡ seat.number + seat.more / 2 + 1) × (ids result.1 ≡ result.1.number ∷ []) × (mine result.1 ≡ []) }
    ensures shut { (shut result.0 ≡ shut seat) × (shut seat ≡ true → shut result.1 ≡ true) }
    ensures counts { (result.0.more ≡ seat.more / 2) × (result.1.more ≡ (seat.more + 1) / 2 - 1) × (result.1.parts ≡ (seat.more + 1) / 2) × (result.0.parts + result.1.parts ≡ seat.parts) }
{
    let (first, second) = lock.split(seat);
    (first, second)
}

/// [`RowLock::join`].
pub fn join<V: Logged>(lock: &RowLock<V>, seat: Seat<V>, other: Seat<V>) -> Seat<V>
    requires of { IsOf lock.now seat × IsOf lock.now other }
    requires home { (is_out seat ≡ false) × (is_out other ≡ false) }
    ensures of { IsOf lock.now result }
    ensures home { is_out result ≡ false }
    ensures seen { IsPrefix (seen seat) (seen result) × IsPrefix (seen other) (seen result) }
    ensures ids { ids result ≡ ids seat ++ ids other }
    ensures once { (x : ℕ) → times x (ids result) ≤ 1 }
    ensures mine { (entries_of V.number (ids seat) (mine result) ≡ mine seat) × (entries_of V.number (ids other) (mine result) ≡ mine other) }
    ensures shut { shut seat ≡ true → shut result ≡ true }
    ensures shut_other { shut other ≡ true → shut result ≡ true }
    ensures counts { (result.number ≡ seat.number) × (result.more ≡ seat.more) × (result.parts ≡ seat.parts + other.parts) }
{
    lock.join(seat, other)
}

/// [`RowLock::learn`].
pub fn learn<V: Logged>(lock: &RowLock<V>, seat: &mut Seat<V>, note: Note<V>)
    requires of { IsOf lock.now seat.old × IsNoteOf lock.now note }
    requires home { is_out seat.old ≡ false }
    ensures of { IsOf lock.now seat.new }
    ensures home { is_out seat.new ≡ false }
    ensures seen { IsPrefix (seen seat.old) (seen seat.new) × IsPrefix (noted note) (seen seat.new) }
    ensures shut { shut seat.old ≡ true → shut seat.new ≡ true }
    ensures keeps { Keeps seat.old seat.new }
{
    lock.learn(seat, note);
}
