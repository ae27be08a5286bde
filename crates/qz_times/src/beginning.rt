//! What is known before the first line.
ghost use Rattle.std.specs.Prelude.{◌≡◌};
ghost use Rattle.qz_times.specs.Known.{kept, nothing};

use crate::known::Known;
use qz_plain::PlainStore;
use std::alloc::Global;

impl Known {
    /// What is known before the first line.
    pub(crate) fn nothing(alloc: Global) -> Known
        ensures { kept result ≡ nothing }
    {
        Known {
            store: PlainStore::new(alloc, 2),
        }
    }
}
