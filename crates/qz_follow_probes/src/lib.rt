//! Calls of a follower, once more: edits of them show which wrong answers the contracts of these calls refuse.
#![tactic(auto)]

ghost use Rattle.std.specs.Prelude.{◌≡◌, ◌≢◌, ◌↔◌, ◌≤◌, ℕ, None, Some, length, true, IfOk, IfErr, IsTrue, OnOk, MatchResult};
ghost use Rattle.qz_model.specs.History.{replay_from};
ghost use Rattle.qz_follow.specs.Following.{Follows, Keeps, IsEnded, short_at};
ghost use Rattle.qz_follow.specs.Promoting.{IsOpenWith, Promotes};
ghost use Rattle.qz_follow.specs.View.{view, keeps_of};
ghost use Rattle.qz_types.specs.Tables.{empty};
ghost use Rattle.qz_trigger_store.specs.View.{disk_state};

use qz_disk::Disk;
use qz_follow::{FollowFault, Follower, PromoteFault};
use qz_tables::Tables;
use qz_trigger_store::TriggerStore;

/// [`Follower::feed`].
pub fn feed(follower: &mut Follower, piece: &[u8]) -> Result<u64, FollowFault>
    ensures follows { Follows piece.now (view follower.old) (view follower.new) }
    ensures ok { IfOk result (λ n. ((view follower.new).fault ≡ None) × (n ≡ length (view follower.new).entries)) }
    ensures err { IfErr result (λ e. (view follower.new).fault ≡ Some e) }
    ensures kept { Keeps (view follower.old) (view follower.new) }
{
    match follower.feed(piece) {
        Ok(count) => Ok(count),
        Err(fault) => Err(fault),
    }
}

/// [`Follower::tables`].
pub fn tables(follower: &Follower) -> &Tables
    ensures { result.now.tables ≡ replay_from (view follower.now).start (view follower.now).entries }
{
    follower.tables()
}

/// [`Follower::short`].
pub fn short(follower: &Follower) -> Option<u64>
    ensures { result ≡ short_at (view follower.now) }
{
    follower.short()
}

/// [`Follower::acknowledged`].
pub fn acknowledged(follower: &Follower) -> u64
    ensures { result ≡ length (view follower.now).entries }
{
    follower.acknowledged()
}

/// [`Follower::ended`].
pub fn ended(follower: &Follower) -> bool
    ensures { IsTrue result ↔ IsEnded (view follower.now) }
{
    follower.ended()
}

/// [`Follower::promote`].
pub fn promote<D: Disk>(follower: Follower, disk: D) -> Result<TriggerStore<D>, (PromoteFault, D)>
    requires kept { keeps_of follower ≡ true }
    requires begins { (at : ℕ) → (view follower).fault ≡ Some (FollowFault.BadStream at) → 6 ≤ at }
    ensures store { IfOk result (IsOpenWith (view follower).version (view follower).start (view follower).entries) }
    ensures promotes { D.honest → MatchResult result (λ store. Promotes (view follower).version (view follower).start (view follower).entries None (D.state disk) (disk_state store))
        (λ e. Promotes (view follower).version (view follower).start (view follower).entries (Some e.0) (D.state disk) (D.state e.1)) }
    ensures no_room { (need room : ℕ) → IfErr result (λ e. e.0 ≡ PromoteFault.NoRoom need room → (view follower).start ≢ empty (view follower).version) }
    ensures short { (at : ℕ) → IfErr result (λ e. (e.0 ≡ PromoteFault.Short at) ↔ (short_at (view follower) ≡ Some at)) }
    ensures long { OnOk result (short_at (view follower) ≡ None) }
{
    match follower.promote(disk) {
        Ok(store) => Ok(store),
        Err((fault, disk)) => Err((fault, disk)),
    }
}
