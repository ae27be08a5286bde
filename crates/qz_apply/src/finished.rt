//! Triggers that are finished.
ghost use Rattle.std.specs.Prelude.{◌≡◌, option_copied};
ghost use Rattle.std.specs.List.{list_any};
ghost use Rattle.qz_types.specs.Words.{trigger_of};
ghost use Rattle.qz_model.specs.Completing.{is_complete, is_finished, finished};
ghost use Rattle.qz_model.specs.Tests.{is_row_of_trigger};
ghost use Rattle.qz_model.specs.Triggers.{without_trigger_and_orphan};
ghost use Rattle.qz_tables.specs.Contents.{KeepsSpare};

use crate::{remove_trigger_and_orphan, same_key};
use qz_tables::Tables;
use qz_types::{Key, TriggerRow, TriggerState};

/// The trigger of this key goes, if it is finished, and with it its job if that is an orphan then.
///
/// It looks at every fired row.
#[tactic(auto, using(crate::proofs::Deletions::none_goes))]
pub fn remove_finished(tables: &mut Tables, key: &Key)
    ensures tables { tables.new.tables ≡ without_trigger_and_orphan tables.old.tables (finished tables.old.tables.fired (trigger_of key.now tables.old.tables.triggers)) }
    ensures spare { KeepsSpare tables.old.spare tables.new.spare }
{
    let Some(trigger) = tables.get_trigger(key) else {
        return;
    };
    if is_finished(tables, trigger) {
        remove_trigger_and_orphan(tables, key);
    }
}

#[tactic(auto, unfolding(qz_model::specs::Completing::is_finished))]
fn is_finished(tables: &Tables, trigger: &TriggerRow) -> bool
    ensures { result ≡ is_finished tables.now.tables.fired trigger.now }
{
    is_complete(trigger.state) && trigger.next.is_none() && !has_row(tables, &trigger.spec.key)
}

// Whether a fired row names the trigger of this key. It looks at each fired row.
#[tactic(auto, using(crate::proofs::Searches::found_at))]
fn has_row(tables: &Tables, trigger: &Key) -> bool
    ensures { result ≡ list_any (is_row_of_trigger trigger.now) tables.now.tables.fired }
{
    for place in 0..tables.len_fired() {
        let Some(row) = tables.nth_fired(place) else {
            unreachable!()
        };
        if same_key(trigger, &row.trigger) {
            return true;
        }
    }
    false
}

fn is_complete(state: TriggerState) -> bool
    ensures { result ≡ is_complete state }
{
    matches!(state, TriggerState::Complete)
}
