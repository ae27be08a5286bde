//! Paused groups, both ways: a text that is a name.
ghost use Rattle.std.specs.Prelude.{IsTrue};
ghost use Rattle.qz_civil.specs.Timings.{is_name};
ghost use Rattle.qz_values.specs.Fields.{text, IsName, name_at};

use crate::records::{Recorded, Row};
use qz_types::Text;
use qz_values::{Fault, Version, owned_name_of, put_name};
use std::alloc::{AllocError, Global};

impl Recorded for Text {
    ghost can_put = { λ name. IsTrue (is_name name) };

    ghost fields = { λ version. text };

    ghost has_record = { λ version. IsName };

    ghost fields_at = { λ version. name_at };

    ghost most = { 202 };

    fn put_fields(&self, out: &mut Vec<u8>) -> Result<(), AllocError> {
        put_name(out, self)
    }

    fn fields_of(alloc: Global, _version: Version, bytes: &[u8]) -> Result<(Text, &[u8]), Fault> {
        owned_name_of(alloc, bytes)
    }

    fn is_format() {}
}

impl Row for Text {}
