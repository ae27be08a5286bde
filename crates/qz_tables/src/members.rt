//! The members of the tables.
ghost use Rattle.std.specs.Prelude.{◌≡◌, ◌≤◌, ◌<◌, ◌+◌, None, Some, IsSome, IfSome, IfNone, OnSome, IfOk, option_copied, length, map, slice_get};
ghost use Rattle.qz_types.specs.Sorted.{IsAscending};
ghost use Rattle.qz_types.specs.Words.{text_cmp, member_of, put_member, without_member, with_member};
ghost use Rattle.qz_tables.specs.Contents.{KeepsSpare, one_member};

use crate::tables::Tables;
use qz_types::{MemberRow, NoMemory, Text};
use std::alloc::Global;

impl Tables {
    /// The member of this node.
    #[tactic(auto, unfolding(qz_types::specs::Words::member_of))]
    pub fn get_member(&self, node: &Text) -> Option<&MemberRow>
        ensures row { option_copied result ≡ member_of node.now self.now.tables.members }
        ensures sorted { IsAscending text_cmp (λ r. r.node) self.now.tables.members }
    {
        self.members.get(node)
    }

    /// The member at this place in the order of the nodes, counted from 0.
    pub fn nth_member(&self, place: usize) -> Option<&MemberRow>
        ensures { option_copied result ≡ slice_get self.now.tables.members place }
    {
        self.members.nth(place)
    }

    /// How many members there are.
    pub fn len_members(&self) -> usize
        ensures { result ≡ length self.now.tables.members }
    {
        self.members.len()
    }

    /// The members in the order of the nodes.
    pub fn sorted_members(&self, alloc: Global) -> Result<Vec<&MemberRow>, NoMemory>
        ensures { IfOk result (λ rows. map (λ r. r.now) rows.items ≡ self.now.tables.members) }
    {
        Ok(self.members.sorted(alloc)?)
    }

    /// Puts in a member of a new node, in the room that is left.
    #[tactic(auto, unfolding(qz_types::specs::Words::member_of, qz_types::specs::Words::put_member))]
    pub fn insert_member(&mut self, row: MemberRow)
        requires absent { member_of row.node self.old.tables.members ≡ None }
        requires room { 0 < self.old.spare.members }
        ensures tables { self.new.tables ≡ record self.old.tables { members = put_member row self.old.tables.members } }
        ensures links { self.new.links ≡ self.old.links }
        ensures spare { KeepsSpare self.old.spare (one_member self.new.spare) }
    {
        self.members.insert(row);
    }

    /// Takes out the member of this node.
    #[tactic(auto, unfolding(qz_types::specs::Words::member_of, qz_types::specs::Words::without_member, qz_types::specs::Words::same_text))]
    pub fn remove_member(&mut self, node: &Text) -> Option<MemberRow>
        ensures row { result ≡ member_of node.now self.old.tables.members }
        ensures tables { self.new.tables ≡ record self.old.tables { members = without_member node.now self.old.tables.members } }
        ensures links { self.new.links ≡ self.old.links }
        ensures spare { KeepsSpare self.old.spare self.new.spare }
        ensures freed { OnSome result (KeepsSpare (one_member self.old.spare) self.new.spare) }
    {
        self.members.remove(node)
    }

    /// Puts a member in place of that of its node, and gives the old one.
    #[tactic(auto, unfolding(qz_types::specs::Words::member_of, qz_types::specs::Words::with_member, qz_types::specs::Words::same_text))]
    pub fn change_member(&mut self, row: MemberRow) -> MemberRow
        requires { IsSome (member_of row.node self.old.tables.members) }
        ensures row { Some result ≡ member_of row.node self.old.tables.members }
        ensures tables { self.new.tables ≡ record self.old.tables { members = with_member row.node (λ _. row) self.old.tables.members } }
        ensures links { self.new.links ≡ self.old.links }
        ensures spare { KeepsSpare self.old.spare self.new.spare }
    {
        let (_, old) = self.members.change(row);
        old
    }
}
