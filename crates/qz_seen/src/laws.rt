//! Laws on the entries of a run's nodes, each as the contract of a function that does nothing.
ghost use Rattle.std.specs.Prelude.{◌≡◌, ◌≢◌, ◌<◌, ◌^◌, ◌≤ℤ◌, ℕ, ℤ, false};
ghost use Rattle.qz_types.specs.Outcomes.{accepted, refused};
ghost use Rattle.qz_types.specs.Tables.{SchedulerTables, IsMoment};
ghost use Rattle.qz_types.specs.Words.{same_text};
ghost use Rattle.qz_types.specs.declared.replies.Refusal.{Refusal as IsRefusal};
ghost use Rattle.qz_types.specs.declared.replies.Reply.{Reply as IsReply};
ghost use Rattle.qz_model.specs.Invariant.{TablesValid};
ghost use Rattle.qz_model.specs.Transaction.{transaction};
ghost use Rattle.qz_run.specs.Stores.{CanAsk};
ghost use Rattle.qz_run.specs.declared.commands.NodeCommand.{NodeCommand as Asked};
ghost use Rattle.qz_seen.specs.Asking.{entry_of};
ghost use Rattle.qz_seen.specs.Effects.{Does, IsTooMany};
ghost use Rattle.qz_seen.specs.Seen.{node_name, seen};

/// Where a node of a run asks what it may, at a moment that doesn't lie before the last one nor after the tables' horizon, an accepted
/// entry does to the node's part of the tables what its reply says. It records that moment, gives no other node a row, and neither
/// makes nor ends its membership.
pub fn entries_do_what_their_replies_say()
    ensures { (T T' : SchedulerTables) (n : ℕ) (at : ℤ) (command : Asked) (r : IsReply) → n < 2 ^ 32 → TablesValid T → IsMoment T.horizon at → T.last_moment ≤ℤ at → CanAsk n at command (seen T) → transaction T (entry_of T at n command) ≡ accepted T' r → Does n at command r (seen T) (seen T') }
{}

/// Of what a node of a run may ask at such a moment, an entry is refused only where a limit would be passed.
pub fn only_limits_refuse()
    ensures { (T : SchedulerTables) (n : ℕ) (at : ℤ) (command : Asked) (x : IsRefusal) → TablesValid T → IsMoment T.horizon at → T.last_moment ≤ℤ at → CanAsk n at command (seen T) → transaction T (entry_of T at n command) ≡ refused x → IsTooMany x }
{}

/// Nodes of different numbers have different names.
pub fn names_differ()
    ensures { (n k : ℕ) → n < 2 ^ 32 → k ≢ n → same_text (node_name n) (node_name k) ≡ false }
{}
