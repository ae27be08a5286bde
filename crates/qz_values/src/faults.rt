//! Why a field could not be read.
ghost use Rattle.std.specs.Prelude.{◌≡◌, length};
ghost use Rattle.qz_values.specs.declared.faults.Fault.TheVariants.{NoMemory};

use std::alloc::{AllocError, AllocFailed};

/// Why a field was not read.
#[derive(Clone, Copy)]
pub enum Fault {
    /// The field that begins where so many bytes are left is wrong.
    Wrong { left: usize },
    NoMemory,
}

impl Fault {
    /// The field at the front of these bytes is wrong.
    pub fn at(bytes: &[u8]) -> Fault
        ensures { result ≡ Fault.Wrong (length bytes.now) }
    {
        Fault::Wrong { left: bytes.len() }
    }
}

impl From<AllocError> for Fault {
    ghost from_gives = { λ _ e. e ≡ NoMemory };

    fn from(_error: AllocError) -> Fault {
        Fault::NoMemory
    }
}

impl<T: Drop> From<AllocFailed<T>> for Fault {
    ghost from_gives = { λ _ e. e ≡ NoMemory };

    fn from(_error: AllocFailed<T>) -> Fault {
        Fault::NoMemory
    }
}
