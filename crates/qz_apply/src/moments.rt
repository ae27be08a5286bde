//! The moment at which a transaction is recorded.
ghost use Rattle.std.specs.Prelude.{◌≡◌};
ghost use Rattle.qz_types.specs.Tables.{recorded_moment};

use qz_tables::Tables;

/// The moment at which a transaction with this reading of the clock is recorded. Both are in ms since
/// 1970-01-01T00:00:00Z. It isn't before the last moment of the tables.
pub fn recorded_moment(tables: &Tables, at: i64) -> i64
    ensures { result ≡ recorded_moment tables.now.tables at }
{
    at.max(0).min(tables.horizon()).max(tables.last_moment())
}
