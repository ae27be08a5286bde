//! Sorted lists of rows, and the numbers of refusals.
ghost use Rattle.std.specs.Prelude.{◌≡◌, ◌<◌, IsOk, IfErr, OnOk, OnErr, option_copied, vec_len, vec_capacity};
ghost use Rattle.qz_types.specs.Refusals.{number_of};
ghost use Rattle.qz_types.specs.Sorted.{row_of, put};

use qz_types::{Keyed, Refusal};
use std::alloc::AllocFailed;

/// Finds a row as `qz_types::find` does.
pub fn find<'a, R: Keyed>(rows: &'a [R], id: &R::Id) -> Option<&'a R>
    ensures { option_copied result ≡ row_of R.Id.cmp R.id id.now rows.now }
{
    qz_types::find(rows, id)
}

/// Inserts a row as `qz_types::insert` does.
pub fn insert<R: Keyed>(rows: &mut Vec<R>, row: R) -> Result<(), AllocFailed<R>>
    ensures ok { OnOk result (rows.new.items ≡ put R.Id.cmp R.id row rows.old.items) }
    ensures err { OnErr result (rows.new.items ≡ rows.old.items) }
    ensures value_returned { IfErr result (λ e. e.value ≡ row) }
    ensures succeeds { vec_len rows.old < vec_capacity rows.old → IsOk result }
{
    qz_types::insert(rows, row)
}

/// The number of a refusal, as `Refusal::number` gives it.
pub fn number(refusal: &Refusal) -> u8
    ensures { result ≡ number_of refusal.now }
{
    refusal.number()
}
