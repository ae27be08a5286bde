//! The state store: when each node last checked in.
ghost use Rattle.std.specs.Prelude.{◌≡◌, IfOk};

use qz_civil::Text;
use std::alloc::AllocError;
use std::marker::Model;

/// A node's last check-in.
#[derive(Clone, Debug, Drop)]
pub struct StateRow {
    /// 1 to `NODE_LIMIT` bytes.
    pub node: Text,
    /// In ms since 1970-01-01T00:00:00Z.
    pub last: i64,
    /// How often it means to check in, in ms: 1 to `INTERVAL_LIMIT`.
    pub interval: i64,
}

impl Model for StateRow {
    ghost use Rattle.std.specs.Prelude.{IsTrue};
    ghost use Rattle.qz_types.specs.Rows.{StateData, is_state};

    ghost Value = { StateData };

    ghost view = { λ a. record { node = a.node; last = a.last; interval = a.interval } };

    ghost invariant = { λ a. IsTrue (is_state (record { node = a.node; last = a.last; interval = a.interval })) };

    ghost inverse = { λ d. record { node = d.node; last = d.last; interval = d.interval } };
}

impl StateRow {
    /// The same row again.
    pub fn copy(&self) -> Result<Self, AllocError>
        ensures { IfOk result (λ row. row ≡ self.now) }
    {
        self.clone()
    }
}

/// Why a node is taken for failed: its last check-in, and until when it wasn't late. Both are in ms since
/// 1970-01-01T00:00:00Z.
#[derive(Drop)]
pub struct Evidence {
    /// 1 to `NODE_LIMIT` bytes.
    pub node: Text,
    pub last: i64,
    pub until: i64,
}

impl Model for Evidence {
    ghost use Rattle.std.specs.Prelude.{IsTrue};
    ghost use Rattle.qz_types.specs.Rows.{EvidenceData, is_node};

    ghost Value = { EvidenceData };

    ghost view = { λ a. record { node = a.node; last = a.last; until = a.until } };

    ghost invariant = { λ a. IsTrue (is_node a.node) };

    ghost inverse = { λ d. record { node = d.node; last = d.last; until = d.until } };
}

/// One transaction of the state store, without its reading. A node's name has 1 to `NODE_LIMIT` bytes.
#[derive(Debug, Drop)]
pub enum StateCommand {
    /// The node lives, and means to check in again after `interval` ms, 1 to `INTERVAL_LIMIT`.
    CheckIn { node: Text, interval: i64 },
    /// The row of a node that is gone is removed, if it still has this last check-in, in ms since 1970-01-01T00:00:00Z.
    Forget { node: Text, last: i64 },
}

/// A transaction of the state store as its history keeps it.
#[derive(Drop)]
pub struct StateEntry {
    /// The reading of the clock, in ms since 1970-01-01T00:00:00Z. Any number: it is clamped when it is recorded.
    pub at: i64,
    /// Which of the callers that share a store asked; 0 for a lone caller.
    pub seat: u32,
    pub command: StateCommand,
}

impl Model for StateEntry {
    ghost use Rattle.std.specs.Prelude.{IsTrue};
    ghost use Rattle.qz_types.specs.Entries.{StateEntryData, is_state_command};

    ghost Value = { StateEntryData };

    ghost view = { λ a. record { at = a.at; seat = a.seat; command = a.command } };

    ghost invariant = { λ a. IsTrue (is_state_command a.command) };

    ghost inverse = { λ d. record { at = d.at; seat = d.seat; command = d.command } };
}
