//! The stores that a run works on.
use crate::{Declined, NodeCommand};
use qz_types::Reply;

/// How many entries a trigger store accepts at most while it is open.
pub const ROOM: usize = 8388608;

/// How many nodes a run has at most.
pub const NODES: u32 = 16;

/// How often a node of a run means to check in, in ms.
pub const CHECK_IN_INTERVAL: i64 = 15000;

/// Both stores, as a run asks them. Nodes are counted from 0; node `i` has the name `n` and then the number `i + 1`. Moments are
/// in ms since 1970-01-01T00:00:00Z, 0 to `LAST`.
pub trait Stores {
    ghost use Rattle.std.specs.Prelude.{◌≡◌, ◌≤ℤ◌, ℕ, ℤ, true, false, IfOk, IfErr, OnOk, OnErr, IfSome};
    ghost use Rattle.qz_run.specs.declared.commands.Declined.{Declined};
    ghost use Rattle.qz_run.specs.declared.commands.NodeCommand.{NodeCommand};
    ghost use Rattle.qz_run.specs.Stores.{RunState, RowCommand, IsTime, CanAsk, Accepts, ChecksIn, Forgets, IsNextDue};

    /// What a run sees of the tables and of its nodes' state rows, and what was accepted since the stores were opened.
    ghost state: { Self → RunState };

    /// What the stores were at the beginning of the run. No call changes it.
    ghost Origin: { Type 0 };

    ghost origin: { Self → Origin };

    /// Why the trigger store, as it stands, declines what this node asks at this moment.
    ghost declines: { Self → ℕ → ℤ → NodeCommand → Declined → Type 0 };

    /// Why the state store, as it stands, declines what is asked of this node's row at this moment.
    ghost declines_row: { Self → ℕ → ℤ → RowCommand → Declined → Type 0 };

    /// A node submits a transaction. It changes nothing where it is declined; at `Declined::Fault` the stores are closed.
    fn submit(&mut self, at: i64, node: u32, command: NodeCommand) -> Result<Reply, Declined>
        requires time { IsTime at }
        requires clock { (state self.old).view.last ≤ℤ at }
        requires can { CanAsk node at command (state self.old).view }
        ensures accepted { IfOk result (λ reply. Accepts at node command reply (state self.old) (state self.new)) }
        ensures declined { IfErr result (λ why. declines self.new node at command why) }
        ensures same { OnErr result (state self.new ≡ state self.old) }
        ensures origin { origin self.new ≡ origin self.old };

    /// A node checks in: from now on it has a state row with the interval `CHECK_IN_INTERVAL`.
    fn check_in(&mut self, at: i64, node: u32) -> Result<(), Declined>
        requires time { IsTime at }
        ensures accepted { OnOk result (ChecksIn at node (state self.old) (state self.new)) }
        ensures declined { IfErr result (λ why. declines_row self.new node at (RowCommand.checks_in CHECK_IN_INTERVAL) why) }
        ensures same { OnErr result (state self.new ≡ state self.old) }
        ensures origin { origin self.new ≡ origin self.old };

    /// The state row of a node that has left is removed.
    fn forget(&mut self, at: i64, node: u32) -> Result<(), Declined>
        requires time { IsTime at }
        requires gone { (state self.old).view.member node ≡ false }
        requires known { (state self.old).states.has node ≡ true }
        ensures accepted { OnOk result (Forgets at node (state self.old) (state self.new)) }
        ensures declined { IfErr result (λ why. declines_row self.new node at RowCommand.forgets why) }
        ensures same { OnErr result (state self.new ≡ state self.old) }
        ensures origin { origin self.new ≡ origin self.old };

    /// The least next time of a WAITING trigger.
    fn next_due(&self) -> Option<i64>
        ensures { IsNextDue (state self.now).view result };

    /// The recorded moment of the last transaction of the trigger store.
    fn last_moment(&self) -> i64
        ensures last { result ≡ (state self.now).view.last }
        ensures time { IsTime result };
}
