//! The stores of a run.
ghost use Rattle.std.specs.Prelude.{◌≡◌, ◌≤ℤ◌, IfOk, IfErr, OnOk, OnErr};
ghost use Rattle.qz_run.specs.Stores.{RowCommand, IsTime, CanAsk, Accepts, ChecksIn, IsNextDue};

use qz_run::{CHECK_IN_INTERVAL, Declined, NodeCommand, Stores};
use qz_types::Reply;

/// A node of a run submits a transaction.
pub fn node_submits<R: Stores>(
    stores: &mut R,
    at: i64,
    node: u32,
    command: NodeCommand,
) -> Result<Reply, Declined>
    requires time { IsTime at }
    requires clock { (R.state stores.old).view.last ≤ℤ at }
    requires can { CanAsk node at command (R.state stores.old).view }
    ensures accepted { IfOk result (λ reply. Accepts at node command reply (R.state stores.old) (R.state stores.new)) }
    ensures declined { IfErr result (λ why. R.declines stores.new node at command why) }
    ensures same { OnErr result (R.state stores.new ≡ R.state stores.old) }
    ensures origin { R.origin stores.new ≡ R.origin stores.old }
{
    stores.submit(at, node, command)
}

/// A node of a run checks in.
pub fn node_checks_in<R: Stores>(stores: &mut R, at: i64, node: u32) -> Result<(), Declined>
    requires time { IsTime at }
    ensures accepted { OnOk result (ChecksIn at node (R.state stores.old) (R.state stores.new)) }
    ensures declined { IfErr result (λ why. R.declines_row stores.new node at (RowCommand.checks_in CHECK_IN_INTERVAL) why) }
    ensures same { OnErr result (R.state stores.new ≡ R.state stores.old) }
    ensures origin { R.origin stores.new ≡ R.origin stores.old }
{
    stores.check_in(at, node)
}

/// When the next trigger of a run is due.
pub fn next_due<R: Stores>(stores: &R) -> Option<i64>
    ensures { IsNextDue (R.state stores.now).view result }
{
    stores.next_due()
}
