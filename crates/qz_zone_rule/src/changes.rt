//! The stretches of a rule, one after the other.
ghost use Rattle.std.specs.Prelude.{◌≡◌, ◌<◌, ℕ, [], ◌∷◌, MatchOption};
ghost use Rattle.std.specs.Ordering.{int_eq};
ghost use Rattle.jiff_tz.specs.declared.timezone.TimeZone.TheVariants.{Posix};
ghost use Rattle.qz_zone_rule.specs.declared.quarters.TheConstants.{QUARTERS};
ghost use Rattle.qz_zone_rule.specs.Tables as spec;

use crate::quarters::{QUARTERS, may_change, stretch_at};
use jiff_tz::posix::TimeZone;
use qz_civil::Stretch;
use std::marker::Model;

/// The stretches of a rule that are still to come. Contracts see it as their list.
#[derive(Drop)]
pub(crate) struct Changes {
    rule: TimeZone,
    place: u32,
    ghost known: { place < QUARTERS },
}

impl Model for Changes {
    ghost use Rattle.std.specs.Prelude.{List};
    ghost use Rattle.jiff_tz.specs.declared.timezone.TimeZone.TheVariants.{Posix};
    ghost use Rattle.qz_civil.specs.declared.stretches.Stretch.{Stretch};
    ghost use Rattle.qz_zone_rule.specs.Tables.{later, offset};

    ghost Value = { List Stretch };

    ghost view = { λ a. later (offset (Posix a.rule)) a.place };
}

impl Changes {
    /// All stretches of the rule but the one with which 1970 begins.
    pub(crate) fn of(rule: &TimeZone) -> Changes
        ensures { result ≡ spec.later (spec.offset (Posix rule.now)) 0 }
    {
        Changes {
            rule: *rule,
            place: 0,
        }
    }

    /// The next stretch.
    pub(crate) fn next(&mut self) -> Option<Stretch>
        ensures { MatchOption result (self.old ≡ []) (λ stretch. self.old ≡ stretch ∷ self.new) }
    {
        let before = stretch_at(&self.rule, self.place);
        let mut place = may_change(&self.rule, self.place);
        while place < QUARTERS {
            let stretch = stretch_at(&self.rule, place);
            self.place = place;
            if !has_same_offset(&stretch, &before) {
                return Some(stretch);
            }
            place = may_change(&self.rule, place);
        }
        None
    }
}

fn has_same_offset(stretch: &Stretch, other: &Stretch) -> bool
    ensures { result ≡ int_eq stretch.now.offset other.now.offset }
{
    stretch.offset == other.offset
}
