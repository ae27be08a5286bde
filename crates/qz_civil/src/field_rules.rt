//! Which fields a cron text may give.
ghost use Rattle.std.specs.Prelude.{◌≡◌};
ghost use Rattle.qz_civil.specs.Fields as spec;

use crate::fields::{DayField, Field};

impl Field {
    /// Whether it is one of the field's values.
    #[tactic(auto, unfolding(crate::specs::Fields::is_value))]
    pub fn is_value(self, value: u16) -> bool
        ensures { result ≡ spec.is_value self value }
    {
        self.least() <= value && value <= self.greatest()
    }

    /// Whether the set has at least one of the field's values, and no bit beyond them.
    #[tactic(auto, unfolding(crate::specs::Fields::is_set, crate::specs::Fields::size))]
    pub fn is_set(self, set: u64) -> bool
        ensures { result ≡ spec.is_set self set }
    {
        let size = self.size();
        0 < set && (64 <= size || set < 1 << size)
    }
}

/// Whether the words, as those of `CronFields::years`, have at least one year, and none after `LAST_YEAR`.
#[tactic(auto, unfolding(crate::specs::Fields::is_year_set, crate::specs::Fields::size))]
pub fn is_year_set(years: [u64; 4]) -> bool
    ensures { result ≡ spec.is_year_set years }
{
    let [first, second, third, fourth] = years;
    (0 < first || 0 < second || 0 < third || 0 < fourth) && fourth < 1 << (Field::Year.size() - 192)
}

impl DayField {
    /// Whether it is `?`, which any day meets.
    pub fn is_any(self) -> bool
        ensures { result ≡ spec.is_any_day self }
    {
        match self {
            DayField::Any => true,
            DayField::Set(_)
            | DayField::Last { .. }
            | DayField::LastWeekday
            | DayField::Nearest { .. } => false,
        }
    }
}
