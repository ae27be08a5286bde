//! The values of a run as bits.
ghost use Rattle.std.specs.Prelude.{◌≡◌, ◌≤◌, IsTrue, ◌^◌, ◌<◌};
ghost use Rattle.qz_civil.specs.Fields.{size, is_value};
ghost use Rattle.qz_cron_text.specs.Runs.{has_value, ahead};
ghost use Rattle.qz_cron_text.specs.Sets.{word_of};

use crate::runs::Run;
use qz_civil::Field;

// How far `to` is ahead of `from`, where after the last of `size` numbers the first comes.
fn ahead(size: u16, from: u16, to: u16) -> u16
    requires size { size ≤ 256 }
    requires from { from ≤ size }
    requires to { to ≤ 256 }
    ensures { result ≡ ahead size from to }
{
    if from <= to {
        to - from
    } else {
        to + size - from
    }
}

// Whether value number `index` is one of the run's.
#[tactic(auto, unfolding(crate::specs::Runs::has_value, qz_civil::specs::Fields::is_value, qz_civil::specs::Fields::greatest, qz_civil::specs::Fields::size, qz_civil::specs::Fields::least))]
fn has_value(field: Field, run: Run, index: u16) -> bool
    requires first { IsTrue (is_value field run.first) }
    requires last { IsTrue (is_value field run.last) }
    requires step { 1 ≤ run.step }
    ensures { result ≡ has_value field run index }
{
    let size = field.size();
    if index >= size {
        return false;
    }
    let first = run.first - field.least();
    let distance = ahead(size, first, index);
    distance <= ahead(size, first, run.last - field.least()) && distance % run.step == 0
}

/// The 64 values from number `from` on, as bits.
#[tactic(auto, unfolding(crate::specs::Sets::word_of), using(crate::proofs::SetLemmas::set_steps))]
pub fn word_of(field: Field, run: Run, from: u16) -> u64
    requires first { IsTrue (is_value field run.first) }
    requires last { IsTrue (is_value field run.last) }
    requires step { 1 ≤ run.step }
    requires from { from ≤ 1000 }
    ensures value { result ≡ word_of field run from }
    ensures small { from ≡ 0 → result < 2 ^ size field }
{
    let mut word = 0;
    for bit in 0..64 {
        if has_value(field, run, from + bit) {
            word |= 1 << bit;
        }
    }
    word
}
