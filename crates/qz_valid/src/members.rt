//! Members.
ghost use Rattle.std.specs.Prelude.{◌≡◌, option_copied};
ghost use Rattle.std.specs.List.{list_all};
ghost use Rattle.qz_valid.specs.Members.{differs_from, member_fits};

use qz_apply::same_text;
use qz_tables::Tables;
use qz_types::MemberRow;

#[tactic(auto, unfolding(crate::specs::Members::differs_from))]
fn differs_from(member: &MemberRow, other: &MemberRow) -> bool
    ensures { result ≡ differs_from member.now other.now }
{
    other.epoch != member.epoch || same_text(other.node.as_str(), member.node.as_str())
}

#[tactic(auto, using(crate::proofs::Walks::fails_at, crate::proofs::Walks::all_pass))]
fn differs_from_all(tables: &Tables, member: &MemberRow) -> bool
    ensures { result ≡ list_all (differs_from member.now) tables.now.tables.members }
{
    for place in 0..tables.len_members() {
        let Some(other) = tables.nth_member(place) else {
            unreachable!()
        };
        if !differs_from(member, other) {
            return false;
        }
    }
    true
}

#[tactic(auto, unfolding(crate::specs::Members::member_fits))]
fn member_fits(tables: &Tables, row: &MemberRow) -> bool
    ensures { result ≡ member_fits tables.now.tables row.now }
{
    row.epoch < tables.next_epoch() && differs_from_all(tables, row)
}

/// Whether each member fits the tables.
#[tactic(auto, using(crate::proofs::Walks::fails_at, crate::proofs::Walks::all_pass))]
pub fn members_fit(tables: &Tables) -> bool
    ensures { result ≡ list_all (member_fits tables.now.tables) tables.now.tables.members }
{
    for place in 0..tables.len_members() {
        let Some(row) = tables.nth_member(place) else {
            unreachable!()
        };
        if !member_fits(tables, row) {
            return false;
        }
    }
    true
}
