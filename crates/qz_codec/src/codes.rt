//! Codes that end an execution, both ways.
ghost use Rattle.std.specs.Prelude.{◌≡◌};
ghost use Rattle.qz_values.specs.Reading.{Gives};
ghost use Rattle.qz_codec.specs.Reading.{code_of, code_at};
ghost use Rattle.qz_codec.specs.Layout.{code_place};

use qz_types::Code;
use qz_values::{Fault, u8_at};

/// The code at this place among all codes.
fn code_at_place(place: u8) -> Option<Code>
    ensures { result ≡ code_of place }
{
    match place {
        0 => Some(Code::Noop),
        1 => Some(Code::ReExecuteJob),
        2 => Some(Code::SetTriggerComplete),
        3 => Some(Code::DeleteTrigger),
        4 => Some(Code::SetAllJobTriggersComplete),
        5 => Some(Code::SetTriggerError),
        6 => Some(Code::SetAllJobTriggersError),
        _ => None,
    }
}

#[tactic(auto, unfolding(crate::specs::Reading::code_at))]
pub(crate) fn code_in(bytes: &[u8]) -> Result<(Code, &[u8]), Fault>
    ensures { Gives (λ x. (x.0, x.1.now)) result (code_at bytes.now) }
{
    let (place, rest) = u8_at(bytes)?;
    match code_at_place(place) {
        Some(code) => Ok((code, rest)),
        None => Err(Fault::at(bytes)),
    }
}

/// The place of the code among all codes.
pub(crate) fn place_of_code(code: Code) -> u8
    ensures { result ≡ code_place code }
{
    match code {
        Code::Noop => 0,
        Code::ReExecuteJob => 1,
        Code::SetTriggerComplete => 2,
        Code::DeleteTrigger => 3,
        Code::SetAllJobTriggersComplete => 4,
        Code::SetTriggerError => 5,
        Code::SetAllJobTriggersError => 6,
    }
}
