//! Laws of the definitions of steps.
ghost use Rattle.std.specs.Prelude.{List, IsTrue};
ghost use Rattle.std.specs.List.{AllByRecursion};
ghost use Rattle.qz_types.specs.Entries.{is_entry, is_state_command};
ghost use Rattle.qz_steps.specs.Steps.{is_step};
ghost use Rattle.qz_steps.specs.declared.steps.StepReply.{StepReply as Answered};
ghost use Rattle.qz_model.specs.History.{IsLegal, replay};
ghost use Rattle.qz_model.specs.Invariant.{TablesValid};
ghost use Rattle.qz_checkin.specs.History.{IsLegal as AreLegal};
ghost use Rattle.qz_cluster.specs.Script.{ScriptState, TimedStep, state_after};
ghost use Rattle.qz_trigger_store.specs.Opening.{IsSound};
ghost use Rattle.qz_checkin.specs.Opening.{IsSound as AreSound};
ghost use Rattle.qz_cluster.specs.Steps.{ClusterState, IsStep, IsCutShort};
ghost use Rattle.qz_cluster.specs.declared.errors.StepEnd.{StepEnd as End};

/// A step leaves in each store a legal history, valid tables or rows, and in an open one no more entries than payloads,
/// where it found them so; and so does a script, step by step, also where the last step is cut short; and whether the disks
/// are honest or not. It does nothing: its contract says so.
#[tactic(auto, using(crate::proofs::Sound::step_sound, crate::proofs::Sound::cut_sound))]
pub fn steps_keep_stores_sound()
    ensures done { (t : TimedStep) (r : Answered) (S new : ClusterState) → IsStep ⊥ t r S new → IsSound S.triggers × AreSound S.states → IsSound new.triggers × AreSound new.states }
    ensures cut { (t : TimedStep) (e : End) (S new : ClusterState) → IsCutShort ⊥ t e S new → IsSound S.triggers × AreSound S.states → IsSound new.triggers × AreSound new.states }
{}

/// The steps of a script keep both histories legal; valid steps keep the entries valid, and the scheduler's tables too.
pub fn scripts_keep_legal_histories()
    ensures legal { (s : ScriptState) (ts : List TimedStep) → IsLegal s.history → IsLegal (state_after s ts).history }
    ensures legal_states { (s : ScriptState) (ts : List TimedStep) → AreLegal s.states → AreLegal (state_after s ts).states }
    ensures entries { (s : ScriptState) (ts : List TimedStep) → AllByRecursion (λ t. IsTrue (is_step t.step)) ts → AllByRecursion (λ e. IsTrue (is_entry e)) s.history.entries → AllByRecursion (λ e. IsTrue (is_entry e)) (state_after s ts).history.entries }
    ensures state_entries { (s : ScriptState) (ts : List TimedStep) → AllByRecursion (λ t. IsTrue (is_step t.step)) ts → AllByRecursion (λ e. IsTrue (is_state_command e.command)) s.states.entries → AllByRecursion (λ e. IsTrue (is_state_command e.command)) (state_after s ts).states.entries }
    ensures tables { (s : ScriptState) (ts : List TimedStep) → AllByRecursion (λ t. IsTrue (is_step t.step)) ts → TablesValid (replay s.history) → TablesValid (replay (state_after s ts).history) }
{}
