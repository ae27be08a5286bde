//! The blocks of a store, taken gate by gate.
ghost use Rattle.std.specs.Prelude.{◌≡◌, ◌≤◌, ◌++◌, ◌∷◌, [], ℕ, All, length, IfOk, IfErr, OnOk, true, false};
ghost use Rattle.qz_journal.specs.Layout.{IsPayload, blocks};
ghost use Rattle.qz_journal.specs.Opening.{IsShut, IsBad};

use crate::MountError;
use crate::layout::{is_open, split_block};
use qz_civil::List;
use std::alloc::Global;

// Adds the payloads of the whole blocks that these bytes begin with. Gives the bytes after them, and whether a closed gate
// stands there; else the gate is missing, or what follows it isn't a whole block.
pub(crate) fn take_blocks<'a>(
    alloc: Global,
    payloads: &mut List<List<u8>>,
    bytes: &'a [u8],
) -> Result<(&'a [u8], bool), MountError>
    ensures whole { IfOk result (λ r. blocks payloads.old ++ bytes.now ≡ blocks payloads.new ++ r.0.now) }
    ensures shorter { IfOk result (λ r. length r.0.now ≤ length bytes.now) }
    ensures sizes { All IsPayload payloads.old → OnOk result (All IsPayload payloads.new) }
    ensures shut { IfOk result (λ r. r.1 ≡ true → IsShut r.0.now) }
    ensures stuck { IfOk result (λ r. r.1 ≡ false → IsBad r.0.now) }
    ensures err { IfErr result (λ e. e ≡ MountError.NoMemory) }
{
    let mut rest = bytes;
    'walk: while let Some((first, behind)) = rest.split_first() {
        let open = is_open(*first);
        if !open {
            return Ok((rest, true));
        }
        let Some((payload, after)) = split_block(behind) else {
            return Ok((rest, false));
        };
        add(alloc, payloads, payload)?;
        rest = after;
    }
    Ok((rest, false))
}

// Adds a copy of a payload at the end.
fn add(alloc: Global, payloads: &mut List<List<u8>>, payload: &[u8]) -> Result<(), MountError>
    ensures ok { OnOk result (payloads.new ≡ payloads.old ++ payload.now ∷ []) }
    ensures err { IfErr result (λ e. e ≡ MountError.NoMemory) }
{
    let copy = Vec::from_slice(alloc, payload)?;
    payloads.push(List::from_vec(copy))?;
    Ok(())
}
