//! Examples of commands, computed: what they do at tables of a few rows.
ghost use Rattle.std.specs.Prelude.{◌≡◌, ℕ, pos, List, [], ◌∷◌, map, Option, Some, None};
ghost use Rattle.qz_civil.specs.declared.limits.TheConstants.{LAST};
ghost use Rattle.qz_types.specs.Outcomes.{refused};
ghost use Rattle.qz_types.specs.declared.commands.Command.TheVariants.{Misfires, Upgrade};
ghost use Rattle.qz_types.specs.declared.replies.Refusal.TheVariants.{Current, NotInError, OldStore};
ghost use Rattle.qz_types.specs.declared.triggers.TriggerState.TheVariants.{Complete, Paused, Waiting};
ghost use Rattle.qz_model.specs.History.{tables_left, replay_from, replies_from, IsLegalFrom};
ghost use Rattle.qz_model.specs.Transaction.{transaction};
ghost use Rattle.qz_model.specs.Upgrading.{version_refusal};
ghost use Rattle.qz_laws.specs.Commands.{holding_tables, holding, takings, failed_tables, resets, old_tables, upgrading, years_of};
ghost use Rattle.qz_laws.specs.Example.{example_tables, example_entries};

/// A trigger that is added while its job's group is paused isn't acquired until no group holds it: neither its job's group nor its
/// own.
pub fn job_groups_hold_new_triggers()
    ensures legal { IsLegalFrom holding_tables holding }
    ensures takings { takings (replies_from holding_tables holding) ≡ 0 ∷ 0 ∷ 0 ∷ 1 ∷ [] }
{}

/// A trigger that recovers a lost execution is paused where its job's group is.
pub fn a_held_recovery()
    ensures { map (λ t. t.state) (replay_from (record example_tables { paused_job_groups = (71 ∷ []) ∷ [] }) example_entries).triggers ≡ Paused ∷ [] }
{}

/// Of two triggers in the state ERROR the one without a next time is complete after a reset, and can't be reset again. The other
/// waits, or is paused where its job's group is.
pub fn two_resets()
    ensures states { map (λ t. t.state) (replay_from failed_tables resets).triggers ≡ Complete ∷ Waiting ∷ [] }
    ensures held { map (λ t. t.state) (replay_from (record failed_tables { paused_job_groups = (71 ∷ []) ∷ [] }) resets).triggers ≡ Complete ∷ Paused ∷ [] }
    ensures again { map (transaction (replay_from failed_tables resets)) resets ≡ refused NotInError ∷ refused NotInError ∷ [] }
{}

/// An upgrade takes a store of format version 1 to version 2: a trigger of all years to 2099 is one of all years to 2199, and one of
/// 1970 alone stays; next times stay. It is refused after that. Until then the store refuses all else.
pub fn an_upgrade_of_an_old_store()
    ensures horizon { (tables_left old_tables (transaction old_tables upgrading)).horizon ≡ LAST }
    ensures years { map (λ t. years_of t.spec.timing.kind) (tables_left old_tables (transaction old_tables upgrading)).triggers ≡ (18446744073709551615 ∷ 18446744073709551615 ∷ 18446744073709551615 ∷ 274877906943 ∷ []) ∷ (1 ∷ 0 ∷ 0 ∷ 0 ∷ []) ∷ [] }
    ensures next_times { map (λ t. t.next) (tables_left old_tables (transaction old_tables upgrading)).triggers ≡ Some (pos 1000) ∷ Some (pos 1000) ∷ [] }
    ensures once { transaction (tables_left old_tables (transaction old_tables upgrading)) upgrading ≡ refused Current }
    ensures refuses { version_refusal old_tables Misfires ≡ Some OldStore }
    ensures takes { version_refusal old_tables Upgrade ≡ None }
    ensures then_takes { version_refusal (tables_left old_tables (transaction old_tables upgrading)) Misfires ≡ None }
{}
