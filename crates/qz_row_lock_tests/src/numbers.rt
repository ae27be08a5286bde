//! A list of numbers under a lock, each with the number of the seat that added it.
ghost use Rattle.std.specs.Prelude.{◌≡◌, ◌++◌, [], ◌∷◌, IfOk, OnOk, OnErr};

use qz_row_lock::Logged;
use std::alloc::AllocError;

#[derive(Clone, Copy, PartialEq, Eq, Debug)]
pub(super) struct Entry {
    pub(super) seat: u32,
    pub(super) value: u64,
}

#[derive(Drop)]
pub(super) struct Numbers {
    pub(super) entries: Vec<Entry>,
    pub(super) closed: bool,
}

impl Logged for Numbers {
    type Entry = Entry;

    type Ground = ();

    ghost history = { λ n. n.entries.items };

    ghost number = { λ e. e.seat };

    ghost is_shut = { λ n. n.closed };

    ghost basis = { λ n. tt };

    fn entries(&self) -> u64 {
        self.entries.len() as u64
    }

    fn shut(&self) -> bool {
        self.closed
    }
}

impl Numbers {
    pub(super) fn add(&mut self, entry: Entry) -> Result<(), AllocError>
        ensures ok { OnOk result (self.new.entries.items ≡ self.old.entries.items ++ entry ∷ []) }
        ensures err { OnErr result (self.new.entries.items ≡ self.old.entries.items) }
        ensures closed { self.new.closed ≡ self.old.closed }
    {
        self.entries.push(entry)?;
        Ok(())
    }
}
