//! Steps of a script.
use crate::questions::{Question, Shown};
use crate::rooms::{Marked, Room};
use qz_types::{Command, Refusal, Reply, Text};

/// What one script line asks for. A client's command is none that a node gives and no Join; a node's command is one
/// that has a node as actor. A node's name has 1 to `NODE_LIMIT` bytes, and an interval is 1 to `INTERVAL_LIMIT` ms.
#[derive(Debug, Drop)]
pub enum Step {
    Client(Command),
    /// The node checks in and joins, and from then on holds the epoch that it got. It will check in each `interval` ms.
    Join { node: Text, interval: i64 },
    /// The node says that it lives, and that it will check in again after `interval` ms.
    CheckIn { node: Text, interval: i64 },
    /// What a node does under the epoch that it holds.
    Node { node: Text, command: Command },
    /// The node removes the check-in of one that failed and was recovered.
    Forget { node: Text, failed: Text },
    /// The node stops in the middle of what it does: it holds its epoch no longer.
    Stop { node: Text },
    /// The node goes on under the epoch that it kept while another program held the stores.
    Resume { node: Text, epoch: u64 },
    /// What is stored is asked for. Nothing changes.
    Show(Question),
    /// A snapshot of the trigger store's tables is to be made, from which the next opening begins. It is no entry.
    Checkpoint,
    /// How full both stores are is asked for. Nothing changes, and a closed store answers too.
    ShowRoom,
    /// All nodes stop, and both disks restart as after a loss of power. What is on them is opened anew.
    Restart,
}

/// What a script step answers.
#[derive(Drop)]
pub enum StepReply {
    Ok(Reply),
    Refused(Refusal),
    /// A disk failed in this step. Its store is closed, and a crash may leave the transaction that failed or not. After
    /// a failed restart both stores are closed.
    Fault,
    /// A store that the step needs is closed since a fault; or there are no stores since a restart failed.
    Closed,
    /// The node holds no epoch: it didn't join, it left, or it stopped.
    Stopped,
    /// Both stores were opened anew, and no node holds an epoch.
    Restarted,
    /// What was asked for.
    Shown(Shown),
    /// What came of a checkpoint.
    Marked(Marked),
    /// How full both stores are.
    Room(Room),
}
