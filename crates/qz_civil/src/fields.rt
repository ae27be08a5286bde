//! The fields of a cron text, and when a local time meets them.
ghost use Rattle.std.specs.Prelude.{◌≡◌, ◌<◌, ◌≤◌};
ghost use Rattle.std.specs.Int.{IsInRange};
ghost use Rattle.qz_civil.specs.Dates.{IsCivil, IsDate};
ghost use Rattle.qz_civil.specs.Fields as spec;

use crate::dates::{Civil, Date, date_part, days_in_month};
use crate::limits::{DAY_SECONDS, LAST_YEAR};

/// A field of a cron text.
#[derive(Clone, Copy, PartialEq, Eq, Debug)]
pub enum Field {
    Seconds,
    Minutes,
    Hours,
    DayOfMonth,
    Month,
    DayOfWeek,
    Year,
}

/// The days of the month that a cron text names.
#[derive(Clone, Copy, PartialEq, Eq, Debug)]
pub enum DayField {
    /// `?`: any day, as far as this field is concerned.
    Any,
    /// Bit 0 is the 1st.
    Set(u32),
    /// `L`, or `L-n` for n days before the month's last day.
    Last { back: u8 },
    /// `LW`: the month's last day from Monday to Friday.
    LastWeekday,
    /// `aW`: the day from Monday to Friday that is nearest to this day, and in its month.
    Nearest { day: u8 },
}

/// The days of the week that a cron text names, each from 1 for Sunday.
#[derive(Clone, Copy, PartialEq, Eq, Debug)]
pub enum WeekField {
    /// `?`: any day, as far as this field is concerned.
    Any,
    /// Bit 0 is Sunday.
    Set(u8),
    /// `aL`: the month's last such day.
    Last { day: u8 },
    /// `a#k`: the month's k-th such day.
    Nth { day: u8, nth: u8 },
}

/// The seven fields of a cron text, as in Quartz's `CronExpression`. Sets are bit sets whose bit 0 is the field's least
/// value.
#[derive(Clone, Copy, PartialEq, Eq, Debug)]
pub struct CronFields {
    pub seconds: u64,
    pub minutes: u64,
    pub hours: u32,
    pub day: DayField,
    pub months: u16,
    pub week: WeekField,
    /// Bit j of word i is the year 1970 + 64 * i + j.
    pub years: [u64; 4],
}

impl Field {
    /// Its place in the text, from 1.
    #[tactic(auto, unfolding(crate::specs::Fields::number))]
    pub fn number(self) -> u8
        ensures { result ≡ spec.number self }
    {
        match self {
            Field::Seconds => 1,
            Field::Minutes => 2,
            Field::Hours => 3,
            Field::DayOfMonth => 4,
            Field::Month => 5,
            Field::DayOfWeek => 6,
            Field::Year => 7,
        }
    }

    /// Its least value.
    #[tactic(auto, unfolding(crate::specs::Fields::least))]
    pub fn least(self) -> u16
        ensures { result ≡ spec.least self }
    {
        match self {
            Field::Seconds | Field::Minutes | Field::Hours => 0,
            Field::DayOfMonth | Field::Month | Field::DayOfWeek => 1,
            Field::Year => 1970,
        }
    }

    /// How many values it has.
    #[tactic(auto, unfolding(crate::specs::Fields::size))]
    pub fn size(self) -> u16
        ensures { result ≡ spec.size self }
    {
        match self {
            Field::Seconds | Field::Minutes => 60,
            Field::Hours => 24,
            Field::DayOfMonth => 31,
            Field::Month => 12,
            Field::DayOfWeek => 7,
            Field::Year => LAST_YEAR as u16 - 1969,
        }
    }

    /// Its greatest value.
    #[tactic(auto, unfolding(crate::specs::Fields::greatest, crate::specs::Fields::least, crate::specs::Fields::size))]
    pub fn greatest(self) -> u16
        ensures { result ≡ spec.greatest self }
    {
        self.least() + self.size() - 1
    }
}

/// Whether the set has the i-th value of its field, from 0.
#[tactic(auto, using(std::proofs::lemmas::Nat::Bits::shr_and_one), unfolding(crate::specs::Fields::has_bit))]
pub fn has_bit(set: u64, i: u32) -> bool
    requires { i < 64 }
    ensures { result ≡ spec.has_bit set i }
{
    (set >> i) & 1 == 1
}

fn weekday_at(day: u32, weekday: u32, other: u32) -> u32
    requires day { day ≤ 31 }
    requires weekday { weekday ≤ 7 }
    requires other { other ≤ 31 }
    ensures { result ≡ spec.weekday_at day weekday other }
{
    (weekday + 34 + other - day) % 7 + 1
}

/// The day from Monday to Friday that is nearest to the day, within its month. `length` is how many days the month has,
/// and `weekday` is the day's, from 1 for Sunday.
pub fn nearest_weekday(length: u32, day: u32, weekday: u32) -> u32
    requires day { IsInRange 1 31 day }
    requires length { 28 ≤ length }
    ensures { result ≡ spec.nearest length day weekday }
{
    if weekday == 7 {
        if day == 1 { 3 } else { day - 1 }
    } else if weekday == 1 {
        if day == length { day - 2 } else { day + 1 }
    } else {
        day
    }
}

impl DayField {
    // Whether the day, of this weekday and in a month of this length, meets the field.
    #[tactic(auto, unfolding(crate::specs::Fields::in_days))]
    fn meets(self, length: u8, day: u8, weekday: u8) -> bool
        requires length { IsInRange 28 31 length }
        requires day { IsInRange 1 length day }
        requires weekday { IsInRange 1 7 weekday }
        ensures { result ≡ spec.in_days self length day weekday }
    {
        let (length, day, weekday) = (u32::from(length), u32::from(day), u32::from(weekday));
        match self {
            DayField::Any => true,
            DayField::Set(set) => has_bit(u64::from(set), day - 1),
            DayField::Last { back } => day + u32::from(back) == length,
            DayField::LastWeekday => day
                == nearest_weekday(length, length, weekday_at(day, weekday, length)),
            DayField::Nearest { day: a } => {
                let a = u32::from(a);
                1 <= a
                    && a <= length
                    && day == nearest_weekday(length, a, weekday_at(day, weekday, a))
            }
        }
    }
}

impl WeekField {
    // Whether the day, of this weekday and in a month of this length, meets the field.
    #[tactic(auto, unfolding(crate::specs::Fields::in_week))]
    fn meets(self, length: u8, day: u8, weekday: u8) -> bool
        requires length { IsInRange 28 31 length }
        requires day { IsInRange 1 length day }
        requires weekday { IsInRange 1 7 weekday }
        ensures { result ≡ spec.in_week self length day weekday }
    {
        match self {
            WeekField::Any => true,
            WeekField::Set(set) => has_bit(u64::from(set), u32::from(weekday - 1)),
            WeekField::Last { day: last } => weekday == last && length < day + 7,
            WeekField::Nth { day: a, nth } => weekday == a && (day + 6) / 7 == nth,
        }
    }
}

impl CronFields {
    /// Whether the years have this one.
    #[tactic(auto, unfolding(crate::specs::Fields::in_years, crate::specs::Fields::has_word, crate::specs::Fields::is_value, crate::specs::Fields::greatest, crate::specs::Fields::least, crate::specs::Fields::size))]
    pub fn has_year(&self, year: u32) -> bool
        ensures { result ≡ spec.in_years self.now year }
    {
        1970 <= year
            && year <= LAST_YEAR
            && {
                let index = year - 1970;
                has_bit(self.years[(index / 64) as usize], index % 64)
            }
    }

    // Whether the months have this one.
    #[tactic(auto, unfolding(crate::specs::Fields::in_months))]
    fn has_month(&self, month: u8) -> bool
        requires { IsInRange 1 12 month }
        ensures { result ≡ spec.in_months self.now month }
    {
        has_bit(u64::from(self.months), u32::from(month - 1))
    }

    /// Whether the date, of this weekday, meets the day, month, weekday and year.
    #[tactic(auto, unfolding(crate::specs::Fields::meets_date))]
    pub fn meets_date(&self, date: Date, weekday: u8) -> bool
        requires date { IsDate date }
        requires weekday { IsInRange 1 7 weekday }
        ensures { result ≡ spec.meets_date self.now date weekday }
    {
        let length = days_in_month(date.year, date.month);
        self.has_year(date.year)
            && self.has_month(date.month)
            && self.day.meets(length, date.day, weekday)
            && self.week.meets(length, date.day, weekday)
    }

    /// Whether the second of the day meets the hours, minutes and seconds.
    #[tactic(auto, unfolding(crate::specs::Fields::meets_time))]
    pub fn meets_time(&self, second: u32) -> bool
        requires { second < DAY_SECONDS }
        ensures { result ≡ spec.meets_time self.now second }
    {
        has_bit(u64::from(self.hours), second / 3600)
            && has_bit(self.minutes, second % 3600 / 60)
            && has_bit(self.seconds, second % 3600 % 60)
    }

    /// Whether the local time meets all seven fields. Fractions of a second don't matter.
    pub fn meets(&self, civil: Civil) -> bool
        requires { IsCivil civil }
        ensures { result ≡ spec.meets self.now civil }
    {
        if civil.year < 0 {
            return false;
        }
        self.meets_date(date_part(civil), civil.weekday) && self.meets_time(civil.second)
    }
}
