//! Members of the cluster.
ghost use Rattle.std.specs.Prelude.{◌≡◌, IfOk};

use qz_civil::Text;
use std::alloc::AllocError;
use std::marker::Model;

/// A node that joined the cluster, with the epoch number that it got. A node that was declared failed and goes on
/// is known by its epoch: it isn't that of the member.
#[derive(Clone, Debug, Drop)]
pub struct MemberRow {
    /// 1 to `NODE_LIMIT` bytes.
    pub node: Text,
    pub epoch: u64,
}

impl Model for MemberRow {
    ghost use Rattle.std.specs.Prelude.{IsTrue};
    ghost use Rattle.qz_types.specs.Rows.{MemberData, is_member};

    ghost Value = { MemberData };

    ghost view = { λ a. record { node = a.node; epoch = a.epoch } };

    ghost invariant = { λ a. IsTrue (is_member (record { node = a.node; epoch = a.epoch })) };

    ghost inverse = { λ d. record { node = d.node; epoch = d.epoch } };
}

impl MemberRow {
    /// The same member again.
    pub fn copy(&self) -> Result<Self, AllocError>
        ensures { IfOk result (λ row. row ≡ self.now) }
    {
        self.clone()
    }
}
