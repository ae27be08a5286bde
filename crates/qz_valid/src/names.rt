//! The numbers that the names of added triggers end in.
ghost use Rattle.std.specs.Prelude.{◌≡◌, ◌<◌, ◌↔◌, IfOk, IsTrue, fold};
ghost use Rattle.qz_model.specs.Triggers.{is_reserved};
ghost use Rattle.qz_valid.specs.Names.{is_digit, with_digit, with_byte, number_of, added_number, is_spent, name_fits, AreApart};
ghost use Rattle.qz_valid.specs.declared.names.Ending.TheVariants.{Other};

use qz_apply::same_text;
use qz_tables::Tables;
use qz_types::{NoMemory, Text, TriggerRow};
use std::alloc::Global;
use std::collections::BTreeSet;

/// What the bytes of a name end in.
#[derive(Clone, Copy)]
pub enum Ending {
    /// An underscore.
    Underscore,
    /// An underscore, and this number in decimal without leading zeros.
    Number(u64),
    /// Neither.
    Other,
}

fn is_digit(byte: u8) -> bool
    ensures { result ≡ is_digit byte }
{
    48 <= byte && byte <= 57
}

fn with_digit(ending: Ending, digit: u64) -> Ending
    requires { digit < 10 }
    ensures { result ≡ with_digit ending digit }
{
    match ending {
        Ending::Underscore => Ending::Number(digit),
        Ending::Number(number) => {
            if 0 < number && number <= (u64::MAX - digit) / 10 {
                Ending::Number(number * 10 + digit)
            } else {
                Ending::Other
            }
        }
        Ending::Other => Ending::Other,
    }
}

#[tactic(auto, unfolding(crate::specs::Names::with_byte))]
fn with_byte(ending: Ending, byte: u8) -> Ending
    ensures { result ≡ with_byte ending byte }
{
    if byte == 95 {
        return Ending::Underscore;
    }
    if is_digit(byte) {
        with_digit(ending, u64::from(byte - 48))
    } else {
        Ending::Other
    }
}

fn ending_of(name: &[u8]) -> Ending
    ensures { result ≡ fold with_byte Other name.now }
{
    name.iter()
        .fold(Ending::Other, |ending, byte| with_byte(ending, *byte))
}

#[tactic(auto, unfolding(crate::specs::Names::number_of))]
fn number_of(name: &Text) -> Option<u64>
    ensures { result ≡ number_of name.now }
{
    match ending_of(name.as_str().as_bytes()) {
        Ending::Number(number) => Some(number),
        Ending::Underscore | Ending::Other => None,
    }
}

#[tactic(auto, unfolding(qz_model::specs::Triggers::is_reserved))]
fn is_reserved(group: &Text) -> bool
    ensures { result ≡ is_reserved group.now }
{
    same_text(group.as_str(), "RECOVERING_JOBS") || same_text(group.as_str(), "MANUAL_TRIGGERS")
}

#[tactic(auto, unfolding(crate::specs::Names::added_number))]
fn added_number(row: &TriggerRow) -> Option<u64>
    ensures { result ≡ added_number row.now }
{
    if is_reserved(&row.spec.key.group) {
        number_of(&row.spec.key.name)
    } else {
        None
    }
}

fn is_spent(tables: &Tables, number: Option<u64>) -> bool
    ensures { result ≡ is_spent tables.now.tables number }
{
    match number {
        Some(number) => number < tables.next_entry() && tables.get_fired(number).is_none(),
        None => false,
    }
}

/// Whether the name fits the entry numbers.
#[tactic(auto, unfolding(crate::specs::Names::name_fits))]
pub fn name_fits(tables: &Tables, row: &TriggerRow) -> bool
    ensures { result ≡ name_fits tables.now.tables row.now }
{
    !is_reserved(&row.spec.key.group) || is_spent(tables, added_number(row))
}

/// Whether no two added triggers are named by one number. It takes memory for the numbers.
pub fn are_apart(alloc: Global, tables: &Tables) -> Result<bool, NoMemory>
    ensures { IfOk result (λ apart. IsTrue apart ↔ AreApart tables.now.tables.triggers) }
{
    let mut numbers = BTreeSet::new(alloc);
    for place in 0..tables.len_triggers() {
        let Some(row) = tables.nth_trigger(place) else {
            unreachable!()
        };
        if let Some(number) = added_number(row) {
            if !numbers.insert(number)? {
                return Ok(false);
            }
        }
    }
    Ok(true)
}
