//! The upgrade of a store of format version 1 to version 2.
ghost use Rattle.std.specs.Prelude.{◌≡◌, None, IsTrue};
ghost use Rattle.qz_civil.specs.Fields.{is_year_set};
ghost use Rattle.qz_types.specs.Outcomes.{accepted};
ghost use Rattle.qz_model.specs.Upgrading.{all_years_to_2099, all_years_to_2199, upgrade_refusal, upgrade};

use qz_tables::{Tables, YearChange};
use qz_types::{LAST, Refusal, Reply};

/// The tables become those of format version 2: fire times may go on to `LAST` from now on, and a cron text with all years of
/// version 1 has all years of version 2. Next times and states stay. Nothing refuses it. The moment is in ms since
/// 1970-01-01T00:00:00Z.
pub fn upgrade(tables: &mut Tables, moment: i64) -> Reply
    requires { upgrade_refusal tables.old.tables ≡ None }
    ensures { upgrade tables.old.tables moment ≡ accepted tables.new.tables result }
{
    tables.change_years(&all_years());
    tables.set_horizon(LAST);
    tables.set_last_moment(moment);
    Reply::Done
}

/// Why the tables aren't upgraded, if they aren't: they are those of version 2 already.
#[tactic(auto, unfolding(qz_model::specs::Upgrading::upgrade_refusal))]
pub fn upgrade_refusal(tables: &Tables) -> Option<Refusal>
    ensures { result ≡ upgrade_refusal tables.now.tables }
{
    if tables.horizon() == LAST {
        Some(Refusal::Current)
    } else {
        None
    }
}

// All years of version 1, and of version 2.
#[tactic(auto, unfolding(qz_civil::specs::Fields::is_year_set, qz_civil::specs::Fields::size))]
fn all_years() -> YearChange
    ensures old { result.old ≡ all_years_to_2099 }
    ensures new { result.new ≡ all_years_to_2199 }
    ensures valid { IsTrue (is_year_set result.new) }
{
    YearChange {
        old: [u64::MAX, u64::MAX, 3, 0],
        new: [u64::MAX, u64::MAX, u64::MAX, (1 << 38) - 1],
    }
}
