//! Runs of values: `*`, `a`, `a-b`, and with a step.
ghost use Rattle.std.specs.Prelude.{◌≡◌};
ghost use Rattle.qz_cron_text.specs.Runs.{closed_run, open_run, run_of, run_fault, is_star, is_year};

use crate::cuts::cut;
use crate::errors::CronError;
use crate::values::{number, value};
use qz_civil::Field;

/// From `first` to `last`, past the greatest value to the least where `last` is smaller, every `step`th.
#[derive(Clone, Copy)]
pub struct Run {
    pub first: u16,
    pub last: u16,
    pub step: u16,
}

fn is_star(text: &[u8]) -> bool
    ensures { result ≡ is_star text.now }
{
    match text {
        [b] => *b == b'*',
        _ => false,
    }
}

// `*`, `a` or `a-b`.
#[tactic(auto, unfolding(crate::specs::Runs::closed_run))]
fn closed_run(field: Field, text: &[u8]) -> Option<Run>
    ensures { result ≡ closed_run field text.now }
{
    if is_star(text) {
        return Some(Run {
            first: field.least(),
            last: field.greatest(),
            step: 1,
        });
    }
    let (first, last) = cut(text, b'-');
    let first = value(field, first)?;
    match last {
        None => Some(Run {
            first,
            last: first,
            step: 1,
        }),
        Some(last) => {
            let last = value(field, last)?;
            Some(Run {
                first,
                last,
                step: 1,
            })
        }
    }
}

// Nothing, `*`, `a` or `a-b` before a step.
#[tactic(auto, unfolding(crate::specs::Runs::open_run))]
fn open_run(field: Field, text: &[u8], step: u16) -> Option<Run>
    ensures { result ≡ open_run field text.now step }
{
    if text.is_empty() || is_star(text) {
        return Some(Run {
            first: field.least(),
            last: field.greatest(),
            step,
        });
    }
    let (first, last) = cut(text, b'-');
    let first = value(field, first)?;
    match last {
        None => Some(Run {
            first,
            last: field.greatest(),
            step,
        }),
        Some(last) => {
            let last = value(field, last)?;
            Some(Run { first, last, step })
        }
    }
}

/// The run that an element is.
#[tactic(auto, unfolding(crate::specs::Runs::run_of))]
pub fn run_of(field: Field, text: &[u8]) -> Option<Run>
    ensures { result ≡ run_of field text.now }
{
    let (base, step) = cut(text, b'/');
    match step {
        None => closed_run(field, base),
        Some(step) => {
            let step = number(step)?;
            open_run(field, base, step)
        }
    }
}

fn is_year(field: Field) -> bool
    ensures { result ≡ is_year field }
{
    matches!(field, Field::Year)
}

/// The first value that is out of range, or else a step that is. Years don't wrap.
#[tactic(auto, unfolding(crate::specs::Runs::run_fault))]
pub fn run_fault(field: Field, run: Run) -> Option<CronError>
    ensures { result ≡ run_fault field run }
{
    let number = field.number();
    if !field.is_value(run.first) || is_year(field) && run.last < run.first {
        Some(CronError::OutOfRange {
            field: number,
            value: run.first,
        })
    } else if !field.is_value(run.last) {
        Some(CronError::OutOfRange {
            field: number,
            value: run.last,
        })
    } else if run.step < 1 || run.step > 59 {
        Some(CronError::BadStep { field: number })
    } else {
        None
    }
}
