//! The calendars of the tables.
ghost use Rattle.std.specs.Prelude.{◌≡◌, ◌≤◌, ◌<◌, ◌+◌, None, Some, IsSome, IfSome, IfNone, OnSome, IfOk, option_copied, length, map, slice_get};
ghost use Rattle.qz_types.specs.Sorted.{IsAscending};
ghost use Rattle.qz_types.specs.Words.{text_cmp, calendar_of, put_calendar, without_calendar, with_calendar};
ghost use Rattle.qz_tables.specs.Contents.{KeepsSpare, one_calendar};

use crate::tables::Tables;
use qz_types::{CalendarRow, NoMemory, Text};
use std::alloc::Global;

impl Tables {
    /// The calendar of this name.
    #[tactic(auto, unfolding(qz_types::specs::Words::calendar_of))]
    pub fn get_calendar(&self, name: &Text) -> Option<&CalendarRow>
        ensures row { option_copied result ≡ calendar_of name.now self.now.tables.calendars }
        ensures sorted { IsAscending text_cmp (λ r. r.name) self.now.tables.calendars }
    {
        self.calendars.get(name)
    }

    /// The calendar at this place in the order of the names, counted from 0.
    pub fn nth_calendar(&self, place: usize) -> Option<&CalendarRow>
        ensures { option_copied result ≡ slice_get self.now.tables.calendars place }
    {
        self.calendars.nth(place)
    }

    /// How many calendars there are.
    pub fn len_calendars(&self) -> usize
        ensures { result ≡ length self.now.tables.calendars }
    {
        self.calendars.len()
    }

    /// The calendars in the order of the names.
    pub fn sorted_calendars(&self, alloc: Global) -> Result<Vec<&CalendarRow>, NoMemory>
        ensures { IfOk result (λ rows. map (λ r. r.now) rows.items ≡ self.now.tables.calendars) }
    {
        Ok(self.calendars.sorted(alloc)?)
    }

    /// Puts in a calendar of a new name, in the room that is left.
    #[tactic(auto, unfolding(qz_types::specs::Words::calendar_of, qz_types::specs::Words::put_calendar))]
    pub fn insert_calendar(&mut self, row: CalendarRow)
        requires absent { calendar_of row.name self.old.tables.calendars ≡ None }
        requires room { 0 < self.old.spare.calendars }
        ensures tables { self.new.tables ≡ record self.old.tables { calendars = put_calendar row self.old.tables.calendars } }
        ensures links { self.new.links ≡ self.old.links }
        ensures spare { KeepsSpare self.old.spare (one_calendar self.new.spare) }
    {
        self.calendars.insert(row);
    }

    /// Takes out the calendar of this name.
    #[tactic(auto, unfolding(qz_types::specs::Words::calendar_of, qz_types::specs::Words::without_calendar, qz_types::specs::Words::same_text))]
    pub fn remove_calendar(&mut self, name: &Text) -> Option<CalendarRow>
        ensures row { result ≡ calendar_of name.now self.old.tables.calendars }
        ensures tables { self.new.tables ≡ record self.old.tables { calendars = without_calendar name.now self.old.tables.calendars } }
        ensures links { self.new.links ≡ self.old.links }
        ensures spare { KeepsSpare self.old.spare self.new.spare }
        ensures freed { OnSome result (KeepsSpare (one_calendar self.old.spare) self.new.spare) }
    {
        self.calendars.remove(name)
    }

    /// Puts a calendar in place of that of its name, and gives the old one.
    #[tactic(auto, unfolding(qz_types::specs::Words::calendar_of, qz_types::specs::Words::with_calendar, qz_types::specs::Words::same_text))]
    pub fn change_calendar(&mut self, row: CalendarRow) -> CalendarRow
        requires { IsSome (calendar_of row.name self.old.tables.calendars) }
        ensures row { Some result ≡ calendar_of row.name self.old.tables.calendars }
        ensures tables { self.new.tables ≡ record self.old.tables { calendars = with_calendar row.name (λ _. row) self.old.tables.calendars } }
        ensures links { self.new.links ≡ self.old.links }
        ensures spare { KeepsSpare self.old.spare self.new.spare }
    {
        let (_, old) = self.calendars.change(row);
        old
    }
}
