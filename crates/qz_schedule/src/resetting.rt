//! Taking a trigger out of the state ERROR.
ghost use Rattle.std.specs.Prelude.{◌≡◌, None, is_none, option_copied, if◌then◌else◌};
ghost use Rattle.qz_types.specs.declared.triggers.TriggerState.TheVariants.{Complete};
ghost use Rattle.qz_types.specs.Outcomes.{accepted};
ghost use Rattle.qz_types.specs.Words.{trigger_of};
ghost use Rattle.qz_model.specs.Resetting.{is_in_error, reset_refusal, reset_trigger};
ghost use Rattle.qz_model.specs.Triggers.{new_state};

use crate::triggers::new_state;
use qz_tables::Tables;
use qz_types::{Key, Refusal, Reply, TriggerRow, TriggerState};

/// The trigger of this key, which nothing refuses, gets the state of a trigger that is stored now. Where it has no next time, it
/// is complete. The moment is in ms since 1970-01-01T00:00:00Z.
pub fn reset_trigger(tables: &mut Tables, moment: i64, key: &Key) -> Reply
    requires { reset_refusal (trigger_of key.now tables.old.tables.triggers) ≡ None }
    ensures { reset_trigger tables.old.tables moment key.now ≡ accepted tables.new.tables result }
{
    let Some(trigger) = tables.get_trigger(key) else {
        unreachable!()
    };
    let state = reset_state(tables, trigger);
    tables.set_trigger_state(key, state);
    tables.set_last_moment(moment);
    Reply::Done
}

// The state of a trigger that is taken out of the state ERROR.
fn reset_state(tables: &Tables, trigger: &TriggerRow) -> TriggerState
    ensures { result ≡ (if is_none trigger.now.next then Complete else new_state tables.now.tables trigger.now.spec) }
{
    if trigger.next.is_none() {
        TriggerState::Complete
    } else {
        new_state(tables, &trigger.spec)
    }
}

/// Why the trigger of this key isn't reset, if it isn't.
#[tactic(auto, unfolding(qz_model::specs::Resetting::reset_refusal))]
pub fn reset_refusal(tables: &Tables, key: &Key) -> Option<Refusal>
    ensures { result ≡ reset_refusal (trigger_of key.now tables.now.tables.triggers) }
{
    match tables.get_trigger(key) {
        None => Some(Refusal::UnknownTrigger),
        Some(trigger) if is_in_error(trigger.state) => None,
        Some(_) => Some(Refusal::NotInError),
    }
}

fn is_in_error(state: TriggerState) -> bool
    ensures { result ≡ is_in_error state }
{
    matches!(state, TriggerState::Error)
}
