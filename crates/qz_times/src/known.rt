//! What lines have stored.
ghost use Rattle.std.specs.Prelude.{◌≡◌};
ghost use Rattle.qz_civil.specs.declared.limits.TheConstants.{LAST};

use qz_plain::PlainStore;

/// What lines have stored: tables of the trigger store, of which only zones and calendars have rows. Fire times may go on to `LAST`.
#[derive(Drop)]
pub(crate) struct Known {
    pub(crate) store: PlainStore,
    ghost reaches: { store.tables.horizon ≡ LAST },
}
