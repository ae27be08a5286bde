//! The zones of the tables.
ghost use Rattle.std.specs.Prelude.{◌≡◌, ◌≤◌, ◌<◌, ◌+◌, None, Some, IsSome, IfSome, IfNone, OnSome, IfOk, option_copied, length, map, slice_get};
ghost use Rattle.qz_types.specs.Sorted.{IsAscending};
ghost use Rattle.qz_types.specs.Words.{text_cmp, zone_of, put_zone, without_zone, with_zone};
ghost use Rattle.qz_tables.specs.Contents.{KeepsSpare, one_zone};

use crate::tables::Tables;
use qz_types::{NoMemory, Text, ZoneRow};
use std::alloc::Global;

impl Tables {
    /// The zone of this name.
    #[tactic(auto, unfolding(qz_types::specs::Words::zone_of))]
    pub fn get_zone(&self, name: &Text) -> Option<&ZoneRow>
        ensures row { option_copied result ≡ zone_of name.now self.now.tables.zones }
        ensures sorted { IsAscending text_cmp (λ r. r.name) self.now.tables.zones }
    {
        self.zones.get(name)
    }

    /// The zone at this place in the order of the names, counted from 0.
    pub fn nth_zone(&self, place: usize) -> Option<&ZoneRow>
        ensures { option_copied result ≡ slice_get self.now.tables.zones place }
    {
        self.zones.nth(place)
    }

    /// How many zones there are.
    pub fn len_zones(&self) -> usize
        ensures { result ≡ length self.now.tables.zones }
    {
        self.zones.len()
    }

    /// The zones in the order of the names.
    pub fn sorted_zones(&self, alloc: Global) -> Result<Vec<&ZoneRow>, NoMemory>
        ensures { IfOk result (λ rows. map (λ r. r.now) rows.items ≡ self.now.tables.zones) }
    {
        Ok(self.zones.sorted(alloc)?)
    }

    /// Puts in a zone of a new name, in the room that is left.
    #[tactic(auto, unfolding(qz_types::specs::Words::zone_of, qz_types::specs::Words::put_zone))]
    pub fn insert_zone(&mut self, row: ZoneRow)
        requires absent { zone_of row.name self.old.tables.zones ≡ None }
        requires room { 0 < self.old.spare.zones }
        ensures tables { self.new.tables ≡ record self.old.tables { zones = put_zone row self.old.tables.zones } }
        ensures links { self.new.links ≡ self.old.links }
        ensures spare { KeepsSpare self.old.spare (one_zone self.new.spare) }
    {
        self.zones.insert(row);
    }

    /// Takes out the zone of this name.
    #[tactic(auto, unfolding(qz_types::specs::Words::zone_of, qz_types::specs::Words::without_zone, qz_types::specs::Words::same_text))]
    pub fn remove_zone(&mut self, name: &Text) -> Option<ZoneRow>
        ensures row { result ≡ zone_of name.now self.old.tables.zones }
        ensures tables { self.new.tables ≡ record self.old.tables { zones = without_zone name.now self.old.tables.zones } }
        ensures links { self.new.links ≡ self.old.links }
        ensures spare { KeepsSpare self.old.spare self.new.spare }
        ensures freed { OnSome result (KeepsSpare (one_zone self.old.spare) self.new.spare) }
    {
        self.zones.remove(name)
    }

    /// Puts a zone in place of that of its name, and gives the old one.
    #[tactic(auto, unfolding(qz_types::specs::Words::zone_of, qz_types::specs::Words::with_zone, qz_types::specs::Words::same_text))]
    pub fn change_zone(&mut self, row: ZoneRow) -> ZoneRow
        requires { IsSome (zone_of row.name self.old.tables.zones) }
        ensures row { Some result ≡ zone_of row.name self.old.tables.zones }
        ensures tables { self.new.tables ≡ record self.old.tables { zones = with_zone row.name (λ _. row) self.old.tables.zones } }
        ensures links { self.new.links ≡ self.old.links }
        ensures spare { KeepsSpare self.old.spare self.new.spare }
    {
        let (_, old) = self.zones.change(row);
        old
    }
}
