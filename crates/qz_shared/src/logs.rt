//! A held store as the value of a lock.
ghost use Rattle.std.specs.Prelude.{◌≡◌, ◌<◌, ◌^◌, length};
ghost use Rattle.qz_stores.specs.Stores.{Submits};
ghost use Rattle.qz_shared.specs.Since.{IsSince};

use crate::{Held, RowStore};
use qz_row_lock::Logged;
use qz_types::SubmitError;
use std::snapshot::Snapshot;

impl<S: RowStore> Held<S> {
    /// A store as it is put under its row.
    #[tactic(auto, using(crate::proofs::Sinces::since_now))]
    pub(crate) fn new(store: S) -> Held<S>
        requires { length (S.listed (S.state store).history) < 2 ^ 62 }
        ensures { (result.store ≡ store) × (result.opened.value ≡ store) }
    {
        let opened = Snapshot::of(&store);
        Held { store, opened }
    }

    /// The store as it lies there.
    pub fn store(&self) -> &S
        ensures { result.now ≡ self.now.store }
    {
        &self.store
    }

    /// The store, which is under a row no more.
    pub(crate) fn into_store(self) -> S
        ensures store { result ≡ self.store }
        ensures since { IsSince S.kind S.listed (S.state self.opened.value) (S.state result) }
        ensures went { ∥ S.Went self.opened.value result ∥₁ }
    {
        let Held { store, opened: _ } = self;
        store
    }

    /// The store's own call.
    pub(crate) fn submit(&mut self, entry: S::Entry) -> Result<S::Reply, SubmitError>
        requires { S.IsProper entry }
        ensures one { Submits S.kind entry result (S.state self.old.store) (S.state self.new.store) }
        ensures opened { self.new.opened ≡ self.old.opened }
    {
        self.store.submit(entry)
    }
}

impl<S: RowStore> Logged for Held<S> {
    type Entry = S::Entry;

    type Ground = Snapshot<S>;

    ghost use Rattle.std.specs.Prelude.{not};

    ghost history = { λ h. S.listed (S.state h.store).history };

    ghost number = { S.seat_of };

    ghost is_shut = { λ h. not (S.state h.store).is_open };

    ghost basis = { λ h. h.opened };

    fn entries(&self) -> u64 {
        self.store.history_len()
    }

    fn shut(&self) -> bool {
        self.store.closed()
    }
}
