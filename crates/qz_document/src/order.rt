//! The order of a document's lists in its text.
ghost use Rattle.std.specs.Prelude.{◌≡◌, IfOk};
ghost use Rattle.json.specs.Find.{as_object};
ghost use Rattle.json.specs.Value.{members_view, value_view};
ghost use Rattle.qz_document.specs.Order.{names_of, names_if, names_in_text, triggers_first};

use json::{Error, Scratch, Value};
use qz_civil::NoMemory;
use std::alloc::Global;

/// Whether the members' list of triggers stands before that of calendars. Of a member that comes twice the last counts.
fn come_first<'a>(members: &[(&'a str, Value<'a>)]) -> bool
    ensures { result ≡ triggers_first (names_of (members_view members.now)) }
{
    let mut first = false;
    for member in members {
        let name = member.0;
        first = name == "calendars" || (first && name != "triggers");
    }
    first
}

/// The same for a JSON value. One that is no object has no members.
fn value_comes_first(value: &Value<'_>) -> bool
    ensures { result ≡ triggers_first (names_if (as_object (value_view value.now))) }
{
    if let Value::Object(members) = value {
        come_first(members)
    } else {
        false
    }
}

/// The same for the bytes of a document.
pub(crate) fn triggers_come_first(alloc: Global, bytes: &[u8]) -> Result<bool, NoMemory>
    ensures { IfOk result (λ first. first ≡ triggers_first (names_in_text bytes.now)) }
{
    let mut scratch = Scratch::new(alloc);
    match Value::from_slice(alloc, bytes, &mut scratch) {
        Ok(value) => Ok(value_comes_first(&value)),
        Err(Error::Invalid) => Ok(false),
        Err(_) => Err(NoMemory),
    }
}
