//! Laws of what a seat's call is answered, in words of what the seat has then seen, and one of which stores may go under
//! a row. The functions do nothing: each contract is a law.
ghost use Rattle.std.specs.Prelude.{◌≡◌, ◌^◌, ◌<◌, ℕ, Err, IsOk, false, length};
ghost use Rattle.qz_types.specs.declared.errors.SubmitError.TheVariants as submit;
ghost use Rattle.qz_types.specs.declared.replies.Refusal.{Refusal};
ghost use Rattle.qz_journal.specs.Commits.{IsFull};
ghost use Rattle.qz_stores.specs.Stores.{StoreState};
ghost use Rattle.qz_stores.specs.Opening.{IsOpened};
ghost use Rattle.qz_shared.specs.Since.{IsSince, history_at, gate_at, payloads_at};
ghost use Rattle.qz_shared.specs.Calls.{Known, Called};

use crate::RowStore;
use qz_stores::Kind;

/// A full journal is answered only where the entry would be accepted after what the seat has then seen, and finds no
/// room after the gate that the ground and the entries since come to.
#[tactic(auto, using(crate::proofs::Answered::full_at))]
pub fn full_only_without_room<S: RowStore>()
    ensures { (opened : StoreState S.History S.Entry) (e : S.Entry) (need room : ℕ) (s t : Known S.Entry)
        → Called {R = S.Reply} S.kind S.listed opened e (Err (submit.JournalFull need room)) s t
        → (t.shut ≡ false) × IsOk (S.kind.answer (history_at S.kind S.listed opened t.seen) e)
        × IsFull (gate_at S.kind S.listed opened t.seen) (payloads_at S.listed opened t.seen) (S.kind.size e) need room }
{}

/// A refusal is that of the entry after what the seat has then seen.
#[tactic(auto, using(crate::proofs::Answered::refused_at))]
pub fn refused_as_seen<S: RowStore>()
    ensures { (opened : StoreState S.History S.Entry) (e : S.Entry) (refusal : Refusal) (s t : Known S.Entry)
        → Called {R = S.Reply} S.kind S.listed opened e (Err (submit.Refused refusal)) s t
        → (t.shut ≡ false) × (S.kind.answer (history_at S.kind S.listed opened t.seen) e ≡ Err refusal) }
{}

/// A store that was just opened may go under a row: its history is short, since no more entries than payloads come before the
/// gate. (A journal takes 2^23 payloads, and the head of a snapshot tells at most 2^32 before it.)
#[tactic(auto, using(crate::proofs::Short::opened_short))]
pub fn opened_is_short<K: Kind>()
    ensures { (s : StoreState K.History K.Entry) → IsOpened K.kind s → s.payloads < 2 ^ 62 → length (K.kind.entries s.history) < 2 ^ 62 }
{}

/// A store that was under a row may go under another, if its history listed fewer than 2^61 entries at first: under a row it
/// takes no more than a journal does.
pub fn closed_is_short<S: RowStore>()
    ensures { (first now : StoreState S.History S.Entry) → IsSince S.kind S.listed first now → length (S.listed first.history) < 2 ^ 61 → length (S.listed now.history) < 2 ^ 62 }
{}
