//! How far back a next time may be before its trigger is misfired.
ghost use Rattle.std.specs.Prelude.{◌≡◌};
ghost use Rattle.qz_types.specs.Outcomes.{accepted};
ghost use Rattle.qz_model.specs.Triggers.{set_threshold};

use qz_tables::Tables;
use qz_types::Reply;

/// Sets the threshold, in ms. The moment is in ms since 1970-01-01T00:00:00Z.
pub fn set_threshold(tables: &mut Tables, moment: i64, threshold: i64) -> Reply
    ensures { set_threshold tables.old.tables moment threshold ≡ accepted tables.new.tables result }
{
    tables.set_threshold(threshold);
    tables.set_last_moment(moment);
    Reply::Done
}
