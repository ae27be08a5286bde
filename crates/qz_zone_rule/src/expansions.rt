//! The table of a rule text.
ghost use Rattle.std.specs.Prelude.{◌≡◌, None, IfOk, IfErr};
ghost use Rattle.jiff_tz.specs.PosixReader.{read_whole};
ghost use Rattle.jiff_tz.specs.declared.timezone.TimeZone.TheVariants.{Posix};
ghost use Rattle.jiff.specs.Placed.{IsPosixZone};
ghost use Rattle.qz_civil.specs.Zones as zones;
ghost use Rattle.qz_zone_rule.specs.declared.faults.RuleFault.TheVariants as RuleFault;
ghost use Rattle.qz_zone_rule.specs.Clocks.{ShowsTimes};
ghost use Rattle.qz_zone_rule.specs.Tables as spec;

use crate::changes::Changes;
use crate::faults::RuleFault;
use crate::judging::fault_of;
use crate::quarters::stretch_at;
use jiff_tz::posix::TimeZone;
use qz_civil::{List, Stretch};
use std::alloc::Global;

/// The table of a POSIX rule text: a stretch for each quarter of an hour from 1970 up to `LAST` at which local time less UTC
/// changes. `BadRule` is answered exactly where `jiff` refuses the text, and `Bad` exactly where the table is no zone, as with an
/// offset of more than 18 hours or with stretches of less than 48 hours. Want of memory hides neither.
pub fn expand(alloc: Global, rule: &str) -> Result<List<Stretch>, RuleFault>
    ensures ok { IfOk result (spec.IsTable rule.now) }
    ensures valid { IfOk result (λ stretches. zones.bad_zone stretches ≡ None) }
    ensures err { IfErr result (spec.IsCause rule.now) }
    ensures times { IfOk result (ShowsTimes rule.now) }
    // The same as a function of the text.
    ensures meaning { spec.Expands result (spec.rule_table rule.now) }
{
    expand_rule(alloc, rule)
}

/// The table of the zone that `jiff` reads a text as.
fn expand_rule(alloc: Global, text: &str) -> Result<List<Stretch>, RuleFault>
    ensures ok { IfOk result (spec.IsTable text.now) }
    ensures valid { IfOk result (λ stretches. zones.bad_zone stretches ≡ None) }
    ensures err { IfErr result (spec.IsCause text.now) }
{
    let rule = read(text)?;
    match fault_of(&rule) {
        Some(fault) => Err(RuleFault::Bad { fault }),
        None => table(alloc, &rule),
    }
}

/// Reads a rule text.
fn read(text: &str) -> Result<TimeZone, RuleFault>
    ensures ok { IfOk result (λ rule. IsPosixZone text.now (Posix rule)) }
    ensures err { IfErr result (λ fault. (fault ≡ RuleFault.BadRule) × (read_whole text.now ≡ None)) }
{
    match jiff::tz::TimeZone::posix(text) {
        Ok(zone) => match zone.to_plain() {
            jiff_tz::TimeZone::Posix(rule) => Ok(rule),
            _ => unreachable!(),
        },
        Err(_) => Err(RuleFault::BadRule),
    }
}

/// The stretches of a rule.
fn table(alloc: Global, rule: &TimeZone) -> Result<List<Stretch>, RuleFault>
    ensures ok { IfOk result (λ stretches. stretches ≡ spec.table (spec.offset (Posix rule.now))) }
    ensures err { IfErr result (λ fault. fault ≡ RuleFault.NoMemory) }
{
    let mut stretches = List::new(alloc);
    stretches.push(stretch_at(rule, 0))?;
    let mut changes = Changes::of(rule);
    while let Some(stretch) = changes.next() {
        stretches.push(stretch)?;
    }
    Ok(stretches)
}
