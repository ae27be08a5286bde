//! Numbers that a board shows.
ghost use Rattle.std.specs.Prelude.{◌≡◌, ◌+◌, ◌^◌, ◌<◌, ◌++◌, [], ◌∷◌, length, pos, None, Some, refl, OnOk, OnErr};
ghost use mathlib.Core.List.{IsPrefix};
ghost use Rattle.qz_board.specs.declared.glance.Glance.{Glance};
ghost use Rattle.qz_board.specs.Boards.{offered, writer_basis, writer_board};

use qz_board::{BoardWriter, Glance, Shown, Subject};
use std::alloc::AllocError;
use std::sync::Wait;

/// Lists of numbers, each with how many came before them.
pub(super) struct Counted;

impl Subject for Counted {
    type Entry = u64;

    type Ground = u32;

    ghost before = { λ n. n };

    ghost glance_of = { λ n xs. record { entries = n + length xs; jobs = length xs; triggers = n; executing = 0; last = pos 0; next = None } };

    ghost counted = { λ n xs. refl };
}

#[derive(Drop)]
pub(super) struct Numbers {
    pub(super) before: u32,
    pub(super) entries: Vec<u64>,
}

impl Shown<Counted> for Numbers {
    ghost history = { λ n. n.entries.items };

    ghost basis = { λ n. n.before };

    fn glance(&self) -> Glance {
        let count = self.entries.len() as u64;
        Glance {
            entries: u64::from(self.before) + count,
            jobs: count,
            triggers: u64::from(self.before),
            executing: 0,
            last: 0,
            next: None,
        }
    }
}

impl Numbers {
    pub(super) fn add(&mut self, number: u64) -> Result<(), AllocError>
        ensures ok { OnOk result (self.new.entries.items ≡ self.old.entries.items ++ number ∷ []) }
        ensures err { OnErr result (self.new.entries.items ≡ self.old.entries.items) }
        ensures before { self.new.before ≡ self.old.before }
    {
        self.entries.push(number)?;
        Ok(())
    }
}

/// Adds a number and posts. Whether there was memory for both.
pub(super) fn add_and_post<R: Wait>(
    rt: &R,
    writer: &mut BoardWriter<Counted>,
    numbers: &mut Numbers,
    number: u64,
) -> bool
    requires goes_on { IsPrefix (offered writer.old) numbers.old.entries.items }
    requires basis { writer_basis writer.old ≡ Some numbers.old.before }
    ensures goes_on { IsPrefix (offered writer.new) numbers.new.entries.items }
    ensures basis { writer_basis writer.new ≡ Some numbers.new.before }
    ensures board { writer_board writer.new ≡ writer_board writer.old }
{
    let added = numbers.add(number).is_ok();
    writer.post(rt, numbers).is_ok() && added
}

/// What a board shows of so many numbers, after others.
pub(super) fn glance_of(before: u64, count: u64) -> Glance
    requires { before + count < 2 ^ 64 }
    ensures { (result.entries ≡ before + count) × (result.jobs ≡ count) × (result.triggers ≡ before) }
{
    Glance {
        entries: before + count,
        jobs: count,
        triggers: before,
        executing: 0,
        last: 0,
        next: None,
    }
}
