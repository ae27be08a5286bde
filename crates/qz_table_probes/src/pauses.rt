//! Which triggers are paused from the start.
ghost use Rattle.std.specs.Prelude.{◌≡◌};
ghost use Rattle.qz_model.specs.Triggers as model;

use qz_tables::Tables;
use qz_types::TriggerSpec;

/// Whether a trigger that is stored now is paused, as `qz_apply::is_in_paused` says.
pub fn is_in_paused(tables: &Tables, spec: &TriggerSpec) -> bool
    ensures { result ≡ model.is_in_paused tables.now.tables spec.now }
{
    qz_apply::is_in_paused(tables, spec)
}
