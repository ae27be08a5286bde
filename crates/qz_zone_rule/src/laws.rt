//! Laws of tables of rules. The functions do nothing: the contract of each is a theorem on the definitions.
ghost use Rattle.std.specs.Prelude.{◌≡◌, ◌<◌, ◌≤ℤ◌, ◌<ℤ◌, ℕ, List, pos, Some, None};
ghost use Rattle.jiff.specs.Placed.{IsPosixZone};
ghost use Rattle.jiff_tz.specs.PosixReader.{read_whole};
ghost use Rattle.jiff_tz.specs.declared.timezone.TimeZone.{TimeZone};
ghost use Rattle.qz_civil.specs.declared.limits.TheConstants.{LAST};
ghost use Rattle.qz_civil.specs.declared.stretches.Stretch.{Stretch};
ghost use Rattle.qz_zone_rule.specs.declared.quarters.TheConstants.{QUARTER, QUARTERS};
ghost use Rattle.qz_zone_rule.specs.Tables.{IsTable, offset, quarter, rule_table, table};

/// A quarter of an hour is 900000 ms, and the quarters of a table are those that begin up to `LAST`.
pub fn quarters_are()
    ensures quarter { QUARTER ≡ pos 900000 }
    ensures count { QUARTERS ≡ 8064576 }
    ensures all { (i : ℕ) → pos (quarter i) ≤ℤ LAST → i < QUARTERS }
    ensures known { (i : ℕ) → i < QUARTERS → pos (quarter i) ≤ℤ LAST }
{}

/// The table of a text is that of the zone which `jiff` reads it as, and a text that `jiff` refuses has none.
pub fn rules_are_jiffs()
    ensures table { (text : List ℕ) (z : TimeZone) → IsPosixZone text z → rule_table text ≡ Some (table (offset z)) }
    ensures one { (text : List ℕ) (stretches : List Stretch) → IsTable text stretches → rule_table text ≡ Some stretches }
    ensures none { (text : List ℕ) → read_whole text ≡ None → rule_table text ≡ None }
{}
