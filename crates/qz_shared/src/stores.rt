//! What can lie under a lock row.
use qz_types::SubmitError;

/// A store that can lie under a lock row. It has a history of entries, each of which bears the number of the seat that
/// asked for it; and a call adds one entry to the history, or none.
pub trait RowStore: Drop {
    ghost use Rattle.std.specs.Prelude.{◌≡◌, ℕ, List, [], ◌∷◌, ◌++◌, length, not};
    ghost use Rattle.qz_stores.specs.Stores.{EntryKind, StoreState, Submits};

    type Entry;

    type Reply;

    /// What the histories of such stores are.
    ghost History: { Type 0 };

    /// What their entries are to them: what each is answered, and the history with it.
    ghost kind: { EntryKind History Self.Entry Self.Reply };

    /// The entries of a history, in order.
    ghost listed: { History → List Self.Entry };

    /// The number of the seat that asked for an entry.
    ghost seat_of: { Self.Entry → ℕ };

    /// The entries that a caller may submit.
    ghost IsProper: { Self.Entry → Type 0 };

    /// The store at this moment.
    ghost state: { Self → StoreState History Self.Entry };

    /// What the store's own calls keep, from one moment to a later one, where that is more than its history says: what it
    /// was opened on, say, or which bytes a crash leaves.
    ghost Went: { Self → Self → Type 0 };

    /// That two histories are the same is known in one way at most.
    ghost histories_once: { (h i : History) → IsProp (h ≡ i) };

    /// How many entries the history has. Takes no memory.
    fn history_len(&self) -> u64
        ensures { result ≡ length (listed (state self.now).history) };

    /// Whether the store takes no entry any more, after a fault of its disk. Takes no memory.
    fn closed(&self) -> bool
        ensures { result ≡ not (state self.now).is_open };

    /// Does one transaction, and answers its reply once its entry is in the history.
    fn submit(&mut self, entry: Self::Entry) -> Result<Self::Reply, SubmitError>
        requires { IsProper entry }
        ensures one { Submits kind entry result (state self.old) (state self.new) }
        ensures went { (first : Self) → Went first self.old → Went first self.new };

    ghost lists: { (e : Self.Entry) (h : History) → listed (kind.with_entry e h) ≡ listed h ++ e ∷ [] };

    /// A store that did nothing yet has kept all.
    ghost begun: { (s : Self) → Went s s };
}
