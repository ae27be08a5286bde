//! Whose a fired row is.
ghost use Rattle.std.specs.Prelude.{◌≡◌, ◌≤◌, length};
ghost use Rattle.qz_types.specs.declared.limits.TheConstants.{NODE_LIMIT};

use crate::FiredRow;
use arrayvec::ArrayString;
use qz_civil::Text;
use std::alloc::AllocError;
use std::marker::Model;

// As many as `NODE_LIMIT`.
const NODE_BYTES: usize = 120;

/// The member that has a fired row. Its name lies in the value itself, so that a refusal which gives it wants no memory.
#[derive(Debug, Drop)]
pub struct Owner {
    node: ArrayString<NODE_BYTES>,
    epoch: u64,
}

impl Model for Owner {
    ghost use Rattle.qz_types.specs.Rows.{MemberData};

    ghost Value = { MemberData };

    ghost view = { λ a. record { node = a.node.bytes; epoch = a.epoch } };
}

impl Clone for Owner {
    ghost is_clone = { λ a b. b ≡ a };

    fn clone(&self) -> Result<Self, AllocError> {
        Ok(Owner {
            node: self.node,
            epoch: self.epoch,
        })
    }
}

impl Owner {
    /// The member of this name under this epoch.
    pub fn new(node: &Text, epoch: u64) -> Owner
        requires { length node.now ≤ NODE_LIMIT }
        ensures { result ≡ record { node = node.now; epoch = epoch } }
    {
        match ArrayString::from(node.as_str()) {
            Ok(node) => Owner { node, epoch },
            Err(_) => unreachable!(),
        }
    }

    /// The name of the node.
    pub fn node(&self) -> &str
        ensures { result.now ≡ self.now.node }
    {
        self.node.as_str()
    }

    /// The epoch that its join gave it.
    pub fn epoch(&self) -> u64
        ensures { result ≡ self.now.epoch }
    {
        self.epoch
    }
}

impl FiredRow {
    /// Whose row it is.
    pub fn owner(&self) -> Owner
        ensures { result ≡ record { node = self.now.node; epoch = self.now.epoch } }
    {
        Owner::new(&self.node, self.epoch)
    }
}
