//! Zones.
ghost use Rattle.std.specs.Prelude.{◌≡◌, ◌++◌, ◌∷◌, [], OnOk};
ghost use Rattle.std.specs.Fmt.{signed_decimal};
ghost use Rattle.qz_json_rows.specs.Zones as spec;

use crate::json::{push_number, push_text};
use crate::lists::{Item, push_list};
use crate::members::{push_label, push_more};
use qz_civil::Stretch;
use qz_types::ZoneRow;
use std::alloc::AllocError;

impl Item for Stretch {
    ghost shown = { λ s. spec.stretch_text s };

    fn push_item(&self, text: &mut Vec<u8>) -> Result<(), AllocError> {
        push_from(text, self.from)?;
        push_number(text, i64::from(self.offset))?;
        text.extend_from_slice(b"]")
    }
}

// When a stretch begins.
fn push_from(text: &mut Vec<u8>, from: i64) -> Result<(), AllocError>
    ensures { OnOk result (text.new.items ≡ text.old.items ++ 91 ∷ signed_decimal from ++ 44 ∷ []) }
{
    text.extend_from_slice(b"[")?;
    push_number(text, from)?;
    text.extend_from_slice(b",")
}

/// Adds a zone, as documents have it: by its table, whether or not a rule gave that.
pub fn push_zone(text: &mut Vec<u8>, zone: &ZoneRow) -> Result<(), AllocError>
    ensures { OnOk result (text.new.items ≡ text.old.items ++ spec.zone_text zone.now) }
{
    text.extend_from_slice(b"{")?;
    push_zone_members(text, zone)?;
    text.extend_from_slice(b"}")
}

/// Adds the members of a zone, which come first in their object.
#[tactic(auto, unfolding(crate::specs::Zones::zone_members, crate::specs::Json::more))]
pub(crate) fn push_zone_members(text: &mut Vec<u8>, zone: &ZoneRow) -> Result<(), AllocError>
    ensures { OnOk result (text.new.items ≡ text.old.items ++ spec.zone_members zone.now) }
{
    push_label(text, "name")?;
    push_text(text, zone.name.as_str())?;
    push_more(text, "stretches")?;
    push_list(text, zone.zone.as_slice())
}
