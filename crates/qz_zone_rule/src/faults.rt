//! Why a rule has no table.
ghost use Rattle.std.specs.Prelude.{◌≡◌};
ghost use Rattle.qz_zone_rule.specs.declared.faults.RuleFault.TheVariants.{NoMemory as NoMemoryFault};

use qz_civil::BadZone;
use std::alloc::{AllocError, AllocFailed};
use thiserror::Error;

/// Why no table is made of a rule text. Want of memory is answered only where the rule has a table.
#[derive(Clone, Copy, PartialEq, Eq, Debug, Error)]
pub enum RuleFault {
    /// The text is no POSIX rule.
    #[error("the text is no POSIX rule")]
    BadRule,
    /// The rule's stretches are no table of a zone.
    #[error("the rule gives no zone: {fault}")]
    Bad { fault: BadZone },
    #[error("out of memory")]
    NoMemory,
}

impl From<AllocError> for RuleFault {
    ghost from_gives = { λ _ e. e ≡ NoMemoryFault };

    fn from(_: AllocError) -> Self {
        RuleFault::NoMemory
    }
}

impl<T: Drop> From<AllocFailed<T>> for RuleFault {
    ghost from_gives = { λ _ e. e ≡ NoMemoryFault };

    fn from(_: AllocFailed<T>) -> Self {
        RuleFault::NoMemory
    }
}
