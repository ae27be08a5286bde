//! Values that may be missing, as they are printed.
ghost use Rattle.std.specs.Prelude.{◌≡◌, ◌++◌, Some, OnOk, string_bytes};
ghost use Rattle.qz_report.specs.Optional.{next_text, optional_name_text};

use crate::names::push_name;
use qz_types::Text;
use std::alloc::AllocError;
use std::fmt;
use std::fmt::Write;

/// A next time in ms since 1970-01-01T00:00:00Z, or `none`.
#[derive(Drop)]
pub struct Next(pub Option<i64>);

impl fmt::Display for Next {
    ghost output = { λ next. Some (next_text next.0) };

    fn fmt<W: fmt::Write>(&self, f: &mut fmt::Formatter<W>) -> fmt::Result {
        match self.0 {
            Some(next) => write!(f, "{next}"),
            None => write!(f, "none"),
        }
    }
}

/// Adds a name, or `none`.
pub fn push_optional_name(text: &mut String, name: &Option<Text>) -> Result<(), AllocError>
    ensures { OnOk result (string_bytes text.new ≡ string_bytes text.old ++ optional_name_text name.now) }
{
    match name {
        Some(name) => push_name(text, name.as_str()),
        None => text.push_str("none"),
    }
}
