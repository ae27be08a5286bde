//! A job that answers a list of codes, and tells its calls.
ghost use Rattle.std.specs.Prelude.{◌≡◌, ◌+◌, [], length, min, MatchOption, slice_index_or};
ghost use Rattle.qz_node.specs.Jobs.{IsCalled, TellsOneMore};

use crate::{Call, Job, JobContext, Outcome};
use qz_types::{Code, List, Text};
use std::alloc::Global;
use std::marker::Model;
use std::mem;

/// A job that answers its codes in turn, and `Code::Noop` after the last one. It keeps its calls, until it finds no memory for
/// one. It is for tests and for trying a document out.
#[derive(Drop)]
pub struct ListJob {
    class: Text,
    codes: List<Code>,
    answered: usize,
    calls: Option<List<Call>>,
}

impl Model for ListJob {
    ghost use Rattle.qz_node.specs.ListJobs.{ListJobData};

    ghost Value = { ListJobData };

    ghost view = { λ j. record { class = j.class; codes = j.codes; answered = j.answered; calls = j.calls } };
}

impl ListJob {
    /// The job of this class that answers these codes. Its calls take memory of this allocator.
    pub fn new(alloc: Global, class: Text, codes: List<Code>) -> ListJob
        ensures { result ≡ record { class = class; codes = codes; answered = 0; calls = Some [] } }
    {
        ListJob {
            class,
            codes,
            answered: 0,
            calls: Some(List::new(alloc)),
        }
    }

    /// The calls so far with their answers. None once there was no memory for one.
    pub fn calls(&self) -> Option<&List<Call>>
        ensures { MatchOption result (self.now.calls ≡ None) (λ calls. self.now.calls ≡ Some calls.now) }
    {
        self.calls.as_ref()
    }

    // The next code.
    fn next_code(&mut self) -> Code
        ensures code { result ≡ slice_index_or self.old.codes self.old.answered Code.Noop }
        ensures rest { self.new ≡ record self.old { answered = min (self.old.answered + 1) (length self.old.codes) } }
    {
        match self.codes.as_slice().get(self.answered) {
            Some(code) => {
                let code = *code;
                self.answered += 1;
                code
            }
            None => {
                self.answered = self.codes.len();
                Code::Noop
            }
        }
    }

    // Keeps the call, or no call any more.
    fn keep(&mut self, context: &JobContext, code: Code)
        ensures told { TellsOneMore (record { context = context.now; code = code }) self.old.calls self.new.calls }
        ensures rest { self.new ≡ record self.old { calls = self.new.calls } }
    {
        let calls = mem::replace(&mut self.calls, None);
        self.calls = with_call(calls, context, code);
    }
}

impl Job for ListJob {
    ghost use Rattle.qz_node.specs.ListJobs.{meaning_of};

    ghost means = { meaning_of };

    fn class(&self) -> &str {
        self.class.as_str()
    }

    fn execute(&mut self, context: &JobContext) -> Outcome
        ensures called { IsCalled context.now result.code (meaning_of self.old) (meaning_of self.new) }
        ensures code { result.code ≡ slice_index_or self.old.codes self.old.answered Code.Noop }
        ensures rest { self.new ≡ record self.old { answered = min (self.old.answered + 1) (length self.old.codes); calls = self.new.calls } }
    {
        let code = self.next_code();
        self.keep(context, code);
        Outcome { code }
    }
}

// The calls with one more, where they are kept and there is memory for it.
fn with_call(calls: Option<List<Call>>, context: &JobContext, code: Code) -> Option<List<Call>>
    ensures { TellsOneMore (record { context = context.now; code = code }) calls result }
{
    let mut calls = calls?;
    let Ok(context) = context.copy() else {
        drop(calls);
        return None;
    };
    match calls.push(Call { context, code }) {
        Ok(()) => Some(calls),
        Err(_) => {
            drop(calls);
            None
        }
    }
}
