//! Laws of streams. The functions do nothing: each holds a proof.
ghost use Rattle.std.specs.Prelude.{◌≡◌, ◌≢◌, ◌+◌, ◌-◌, ◌<◌, ◌++◌, ℕ, List, Option, Some, length};
ghost use Rattle.qz_journal.specs.Layout.{end_of, Holds};
ghost use Rattle.qz_journal.specs.Commits.{room_of};
ghost use Rattle.qz_stream.specs.Front.{IsVersionOf};
ghost use Rattle.qz_stream.specs.Blocks.{AreTaken, AreWithin, IsEnd, IsBadPlace, IsStoreBytes};
ghost use Rattle.qz_stream.specs.Standing.{Standing, IsAfter, header_length_of};
ghost use Rattle.qz_stream.specs.declared.place.Place.TheVariants as place;

use crate::blocks::MAX_BYTES;
use qz_journal::TRIGGERS;

/// The payloads that were handed out are those of the bytes that were fed, so it doesn't matter how the bytes were cut. They
/// are all whole payloads, unless there is a bad place, and then the first ones. The version is that of the bytes, too.
pub fn payloads_are_those_of_the_bytes()
    ensures one { (fed : List ℕ) (ps qs : List (List ℕ)) (s t : Standing) → IsAfter fed ps s → IsAfter fed qs t → ps ≡ qs }
    ensures taken { (fed : List ℕ) (ps : List (List ℕ)) (s : Standing) → IsAfter fed ps s → s.place ≢ place.Bad → AreTaken fed ps }
    ensures taken_once { (bytes : List ℕ) (ps qs : List (List ℕ)) → AreTaken bytes ps → AreTaken bytes qs → ps ≡ qs }
    ensures before_bad { (fed : List ℕ) (ps qs : List (List ℕ)) (at : ℕ) → IsBadPlace fed ps at → AreTaken fed qs → (more : List (List ℕ)) × (qs ≡ ps ++ more) }
    ensures version { (fed : List ℕ) (v w : Option ℕ) → IsVersionOf fed v → IsVersionOf fed w → v ≡ w }
{}

/// What the bytes that were fed have is told: a bad place, an end, and that the header isn't whole. There is one bad place at
/// most.
pub fn places_are_told()
    ensures bad { (fed : List ℕ) (ps qs : List (List ℕ)) (s : Standing) (at : ℕ) → IsAfter fed ps s → IsBadPlace fed qs at → (s.place ≡ place.Bad) × (s.gate ≡ at) }
    ensures one_bad { (fed : List ℕ) (ps qs : List (List ℕ)) (a b : ℕ) → IsBadPlace fed ps a → IsBadPlace fed qs b → (ps ≡ qs) × (a ≡ b) }
    ensures end { (fed : List ℕ) (ps qs : List (List ℕ)) (s : Standing) (at : ℕ) → IsAfter fed ps s → IsEnd fed qs at → (s.place ≡ place.Ended) × (s.gate ≡ at) }
    ensures short { (fed : List ℕ) (ps : List (List ℕ)) (s : Standing) → IsAfter fed ps s → length fed < 16 → s.place ≢ place.Bad → header_length_of s ≡ Some (length fed) }
    ensures length { (fed : List ℕ) (ps : List (List ℕ)) (s : Standing) (n : ℕ) → IsAfter fed ps s → header_length_of s ≡ Some n → (n ≡ length fed) × (length fed < 16) }
{}

/// The payloads of a store are taken, and the stream ends after them; its version is told. What a journal of triggers holds
/// is such a store, and the limit of bytes is the journal's.
pub fn stores_are_taken()
    ensures taken { (bytes : List ℕ) (version : ℕ) (ps : List (List ℕ)) → IsStoreBytes bytes version ps → AreTaken bytes ps }
    ensures end { (bytes : List ℕ) (version : ℕ) (ps : List (List ℕ)) → IsStoreBytes bytes version ps → AreWithin ps → IsEnd bytes ps (end_of ps) }
    ensures version { (bytes : List ℕ) (version : ℕ) (ps : List (List ℕ)) → IsStoreBytes bytes version ps → IsVersionOf bytes (Some version) }
    ensures holds { (bytes : List ℕ) (version : ℕ) (ps : List (List ℕ)) → Holds bytes version TRIGGERS ps → IsStoreBytes bytes version ps }
    ensures limit { (offset : ℕ) → room_of offset 0 ≡ MAX_BYTES - (offset + 1) }
{}

/// A stream has as many bytes as a store may have: 2^29.
pub fn most_bytes_are()
    ensures { MAX_BYTES ≡ 536870912 }
{}
