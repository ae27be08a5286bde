//! The versions of records.
ghost use Rattle.std.specs.Prelude.{◌≡◌};
ghost use Rattle.qz_values.specs.Versions as format;

use qz_civil::{VERSION_ONE_LAST, VERSION_ONE_LAST_YEAR};

/// The version of a record. Records are written in version two, and read in both.
#[derive(Clone, Copy)]
pub enum Version {
    /// Its years end with 2099, and its intervals have no flags: both are true.
    One,
    Two,
}

impl Version {
    pub(crate) fn has_year(self, year: u32) -> bool
        ensures { result ≡ format.has_year self year }
    {
        match self {
            Version::One => year <= VERSION_ONE_LAST_YEAR,
            Version::Two => true,
        }
    }

    pub(crate) fn has_moment(self, ms: i64) -> bool
        ensures { result ≡ format.has_moment self ms }
    {
        match self {
            Version::One => ms <= VERSION_ONE_LAST,
            Version::Two => true,
        }
    }

    /// Whether the third of the four words of years may be this one.
    pub(crate) fn has_third_word(self, word: u64) -> bool
        ensures { result ≡ format.has_third_word self word }
    {
        match self {
            Version::One => word < 1 << (VERSION_ONE_LAST_YEAR - 1969 - 128),
            Version::Two => true,
        }
    }

    pub(crate) fn has_years(self, years: [u64; 4]) -> bool
        ensures { result ≡ format.has_years self years }
    {
        let [_, _, third, fourth] = years;
        match self {
            Version::One => self.has_third_word(third) && fourth == 0,
            Version::Two => true,
        }
    }
}
