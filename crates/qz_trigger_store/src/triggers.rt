//! The tables of the trigger store in memory.
ghost use Rattle.std.specs.Prelude.{◌≡◌};
ghost use Rattle.qz_model.specs.Invariant.{TablesValid};
ghost use Rattle.qz_trigger_store.specs.Entries.{is_old};

use qz_civil::VERSION_ONE_LAST;
use qz_plain::PlainStore;

/// What a trigger store keeps in memory: the tables, which are valid.
#[derive(Drop)]
pub struct Triggers {
    pub(crate) tables: PlainStore,
    ghost valid: { ∥ TablesValid tables.tables ∥₁ },
}

impl Triggers {
    /// Whether the tables are those of version one, and weren't upgraded.
    pub(crate) fn is_old(&self) -> bool
        ensures { result ≡ is_old self.now.tables.tables }
    {
        self.tables.tables().horizon() == VERSION_ONE_LAST
    }
}
