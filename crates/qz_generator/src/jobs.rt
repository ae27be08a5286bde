//! The jobs that are made.
ghost use Rattle.std.specs.Prelude.{◌≡◌, ◌++◌, ◌∷◌, IfOk, IsTrue};
ghost use Rattle.std.specs.Fmt.{decimal};
ghost use Rattle.qz_types.specs.Rows.{is_key};
ghost use Rattle.qz_generator.specs.Commands as spec;

use crate::choices::Choice;
use qz_civil::beside;
use qz_types::{JobRow, Key, Text};
use std::alloc::{AllocError, Global};

/// `j` and the number, in the group DEFAULT.
pub(crate) fn job_key(alloc: Global, number: u32) -> Result<Key, AllocError>
    ensures value { IfOk result (λ key. key ≡ spec.job_key number) }
    ensures valid { IfOk result (λ key. IsTrue (is_key key)) }
{
    let name = format!(in alloc; "j{number}")?;
    Key::new(alloc, "DEFAULT", name.as_str())
}

/// The job of this number.
#[tactic(auto, unfolding(crate::specs::Commands::job_of))]
pub(crate) fn make_job(alloc: Global, number: u32, choice: &Choice) -> Result<JobRow, AllocError>
    ensures { IfOk result (λ job. job ≡ spec.job_of number choice.now) }
{
    let key = job_key(alloc, number)?;
    let (key, class) = beside(key, Text::from_str(alloc, "ok"))?;
    Ok(JobRow {
        key,
        class,
        durable: false,
        no_concurrent: choice.no_concurrent,
        requests_recovery: choice.requests_recovery,
        payload: Text::new(alloc),
    })
}
