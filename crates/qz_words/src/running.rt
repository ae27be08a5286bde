//! The words of the calls on a virtual clock.
ghost use Rattle.std.specs.Prelude.{◌≡◌, IfOk};
ghost use Rattle.qz_words.specs.Running as spec;
ghost use Rattle.qz_words.specs.Wishes.{IsWish};

use crate::numbers::number_of;
use crate::wishes::{Wish, WordFault, wrong_count};
use qz_civil::{LAST, Text};

/// How many nodes a run has at most.
pub const NODE_LIMIT: u64 = 16;

/// How many firings a run may make at most.
pub const BUDGET_LIMIT: u64 = 1000000;

/// How many firings a run may make where the words don't say it.
pub const USUAL_BUDGET: u64 = 100000;

/// How many jobs are made from a number at most.
pub const JOB_LIMIT: u64 = 1000;

/// For how many days made jobs are run at most.
pub const DAY_LIMIT: u64 = 28;

/// `run NODES FROM UNTIL [BUDGET]`, after its first word.
pub(crate) fn run(further: &[Text]) -> Result<Wish, WordFault>
    ensures value { result ≡ spec.run further.now }
    ensures valid { IfOk result IsWish }
{
    match further {
        [nodes, from, until] => run_of(
            number_of(nodes.as_str()),
            number_of(from.as_str()),
            number_of(until.as_str()),
            Some(USUAL_BUDGET),
        ),
        [nodes, from, until, budget] => run_of(
            number_of(nodes.as_str()),
            number_of(from.as_str()),
            number_of(until.as_str()),
            number_of(budget.as_str()),
        ),
        _ => Err(wrong_count(further)),
    }
}

fn run_of(
    nodes: Option<u64>,
    from: Option<u64>,
    until: Option<u64>,
    budget: Option<u64>,
) -> Result<Wish, WordFault>
    ensures value { result ≡ spec.run_of nodes from until budget }
    ensures valid { IfOk result IsWish }
{
    let Some(nodes) = nodes else {
        return Err(WordFault::BadNumber { place: 1 });
    };
    let Some(from) = from else {
        return Err(WordFault::BadNumber { place: 2 });
    };
    let Some(until) = until else {
        return Err(WordFault::BadNumber { place: 3 });
    };
    let Some(budget) = budget else {
        return Err(WordFault::BadNumber { place: 4 });
    };
    run_in_range(nodes, from, until, budget)
}

fn run_in_range(nodes: u64, from: u64, until: u64, budget: u64) -> Result<Wish, WordFault>
    ensures value { result ≡ spec.run_in_range nodes from until budget }
    ensures valid { IfOk result IsWish }
{
    if nodes < 1 || nodes > NODE_LIMIT {
        return Err(WordFault::OutOfRange { place: 1 });
    }
    if from > LAST as u64 {
        return Err(WordFault::OutOfRange { place: 2 });
    }
    if until > LAST as u64 || until < from {
        return Err(WordFault::OutOfRange { place: 3 });
    }
    if budget < 1 || budget > BUDGET_LIMIT {
        return Err(WordFault::OutOfRange { place: 4 });
    }
    Ok(Wish::Run {
        nodes: nodes as u32,
        from: from as i64,
        until: until as i64,
        budget,
    })
}

/// `gen SEED JOBS DAYS`, after its first word.
pub(crate) fn generate(further: &[Text]) -> Result<Wish, WordFault>
    ensures value { result ≡ spec.generate further.now }
    ensures valid { IfOk result IsWish }
{
    match further {
        [seed, jobs, days] => gen_of(
            number_of(seed.as_str()),
            number_of(jobs.as_str()),
            number_of(days.as_str()),
        ),
        _ => Err(wrong_count(further)),
    }
}

fn gen_of(seed: Option<u64>, jobs: Option<u64>, days: Option<u64>) -> Result<Wish, WordFault>
    ensures value { result ≡ spec.gen_of seed jobs days }
    ensures valid { IfOk result IsWish }
{
    let Some(seed) = seed else {
        return Err(WordFault::BadNumber { place: 1 });
    };
    let Some(jobs) = jobs else {
        return Err(WordFault::BadNumber { place: 2 });
    };
    let Some(days) = days else {
        return Err(WordFault::BadNumber { place: 3 });
    };
    gen_in_range(seed, jobs, days)
}

fn gen_in_range(seed: u64, jobs: u64, days: u64) -> Result<Wish, WordFault>
    ensures value { result ≡ spec.gen_in_range seed jobs days }
    ensures valid { IfOk result IsWish }
{
    if jobs < 1 || jobs > JOB_LIMIT {
        return Err(WordFault::OutOfRange { place: 2 });
    }
    if days < 1 || days > DAY_LIMIT {
        return Err(WordFault::OutOfRange { place: 3 });
    }
    Ok(Wish::Gen {
        seed,
        jobs: jobs as u32,
        days: days as u32,
    })
}
