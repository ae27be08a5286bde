//! Keys of jobs and triggers.
ghost use Rattle.std.specs.Prelude.{◌≡◌, IfOk};

use qz_civil::{Text, beside};
use std::alloc::{AllocError, Global};

/// A job's or trigger's key, as Quartz has it. Keys are ordered by the bytes of the group, then of the name. In rows and
/// commands both have 1 to `NAME_LIMIT` bytes.
#[derive(Clone, PartialEq, Eq, PartialOrd, Ord, Debug, Drop)]
pub struct Key {
    pub group: Text,
    pub name: Text,
}

impl Key {
    /// The key of this group and name, in memory of its own.
    pub fn new(alloc: Global, group: &str, name: &str) -> Result<Key, AllocError>
        ensures { IfOk result (λ key. key ≡ record { group = group.now; name = name.now }) }
    {
        let group = Text::from_str(alloc, group)?;
        let (group, name) = beside(group, Text::from_str(alloc, name))?;
        Ok(Key { group, name })
    }

    /// The same key again.
    pub fn copy(&self) -> Result<Self, AllocError>
        ensures { IfOk result (λ k. k ≡ self.now) }
    {
        self.clone()
    }
}
