//! What a node does next, step by step.
ghost use Rattle.std.specs.Prelude.{◌≡◌, ◌≤ℤ◌};
ghost use Rattle.qz_node.specs.Turns.{wanted};

use super::hub::{Answer, OneAnswer};
use super::rows::T0;
use crate::rows::{Row, check};
use qz_node::{Heard, Turn, Want, ask};
use qz_types::{Code, LONGEST};
use std::alloc::{AllocError, Global};

/// The clock's reading, what the node does next, and what it hears of that.
type Step = (i64, Want, Answer);

/// A node that works up to a moment, from its first step on.
type TurnRow = (i64, &'static [Step]);

impl Row for TurnRow {
    fn holds(&self, alloc: Global) -> Result<bool, AllocError> {
        let &(until, steps) = self;
        if until > LONGEST {
            return Ok(false);
        }
        let mut turn = Turn::new(until);
        for step in steps {
            if !goes_on(alloc, &mut turn, step) {
                return Ok(false);
            }
        }
        Ok(true)
    }
}

// Whether the node does what the step says. It hears then what the step says.
fn goes_on(alloc: Global, turn: &mut Turn, step: &Step) -> bool
    requires { turn.old.until ≤ℤ LONGEST }
    ensures { turn.new.until ≡ turn.old.until }
{
    let &(now, want, answer) = step;
    let next = turn.next_step(now);
    if next != want {
        return false;
    }
    match next.command() {
        Some(command) => {
            let mut hub = OneAnswer { alloc, answer };
            drop(ask(&mut hub, turn, now, command));
        }
        None => hear(turn, now, next, answer),
    }
    true
}

// What isn't asked of a store.
#[tactic(auto, using(qz_node::proofs::Wants::executes_held))]
fn hear(turn: &mut Turn, now: i64, next: Want, answer: Answer)
    requires { wanted turn.old now ≡ next }
    ensures { turn.new.until ≡ turn.old.until }
{
    match (next, answer) {
        (Want::Execute { entry }, Answer::Executed(code)) => {
            turn.learn(Heard::Executed { entry, code });
        }
        (Want::Rest { until: _ }, Answer::Rested) => turn.learn(Heard::Rested),
        _ => {}
    }
}

const NONE_MISFIRED: Answer = Answer::Misfired { moved: false };

const NONE_DUE: Answer = Answer::Acquired(None);

/// Nodes by what they do.
const ROWS: &[TurnRow] = &[
    // Misfires until there are none, then one entry from its Acquire to its end, and the misfires again.
    (
        T0 + 5000,
        &[
            (T0, Want::Misfires, Answer::Misfired { moved: true }),
            (T0, Want::Misfires, NONE_MISFIRED),
            (
                T0,
                Want::Acquire { no_later: T0 },
                Answer::Acquired(Some(7)),
            ),
            (T0 + 1, Want::Fire { entry: 7 }, Answer::Fired),
            (
                T0 + 1,
                Want::Execute { entry: 7 },
                Answer::Executed(Code::DeleteTrigger),
            ),
            (
                T0 + 9,
                Want::Complete {
                    entry: 7,
                    code: Code::DeleteTrigger,
                },
                Answer::Completed,
            ),
            (T0 + 9, Want::Misfires, NONE_MISFIRED),
            (
                T0 + 9,
                Want::Acquire { no_later: T0 + 9 },
                Answer::Acquired(Some(8)),
            ),
            (T0 + 9, Want::Fire { entry: 8 }, Answer::Fired),
        ],
    ),
    // Where nothing is due it rests for a second, the last time only up to its end, and then ends.
    (
        T0 + 1500,
        &[
            (T0, Want::Misfires, NONE_MISFIRED),
            (T0, Want::Acquire { no_later: T0 }, NONE_DUE),
            (T0, Want::Rest { until: T0 + 1000 }, Answer::Rested),
            (T0 + 1000, Want::Misfires, NONE_MISFIRED),
            (
                T0 + 1000,
                Want::Acquire {
                    no_later: T0 + 1000,
                },
                NONE_DUE,
            ),
            (T0 + 1000, Want::Rest { until: T0 + 1500 }, Answer::Rested),
            (T0 + 1500, Want::Misfires, NONE_MISFIRED),
            (
                T0 + 1500,
                Want::Acquire {
                    no_later: T0 + 1500,
                },
                NONE_DUE,
            ),
            (T0 + 1500, Want::End, Answer::Rested),
            (T0 + 1499, Want::Rest { until: T0 + 1500 }, Answer::Rested),
            (T0 + 1499, Want::Misfires, NONE_MISFIRED),
        ],
    ),
    // An execution that asks for another one, under the same entry.
    (
        T0,
        &[
            (T0, Want::Misfires, NONE_MISFIRED),
            (
                T0,
                Want::Acquire { no_later: T0 },
                Answer::Acquired(Some(1)),
            ),
            (T0, Want::Fire { entry: 1 }, Answer::Fired),
            (
                T0,
                Want::Execute { entry: 1 },
                Answer::Executed(Code::ReExecuteJob),
            ),
            (
                T0,
                Want::Complete {
                    entry: 1,
                    code: Code::ReExecuteJob,
                },
                Answer::Again,
            ),
            (T0, Want::Execute { entry: 1 }, Answer::Executed(Code::Noop)),
            (
                T0,
                Want::Complete {
                    entry: 1,
                    code: Code::Noop,
                },
                Answer::Completed,
            ),
            (T0, Want::Misfires, NONE_MISFIRED),
        ],
    ),
    // A refusal of a Fire or of a Complete ends the entry; one of Misfires or Acquire changes nothing, nor does a fault.
    (
        T0,
        &[
            (T0, Want::Misfires, Answer::Refused),
            (T0, Want::Misfires, Answer::Fault),
            (T0, Want::Misfires, NONE_MISFIRED),
            (T0, Want::Acquire { no_later: T0 }, Answer::Refused),
            (
                T0,
                Want::Acquire { no_later: T0 },
                Answer::Acquired(Some(1)),
            ),
            (T0, Want::Fire { entry: 1 }, Answer::Fault),
            (T0, Want::Fire { entry: 1 }, Answer::Refused),
            (T0, Want::Misfires, NONE_MISFIRED),
            (
                T0,
                Want::Acquire { no_later: T0 },
                Answer::Acquired(Some(2)),
            ),
            (T0, Want::Fire { entry: 2 }, Answer::Fired),
            (T0, Want::Execute { entry: 2 }, Answer::Executed(Code::Noop)),
            (
                T0,
                Want::Complete {
                    entry: 2,
                    code: Code::Noop,
                },
                Answer::Refused,
            ),
            (T0, Want::Misfires, NONE_MISFIRED),
        ],
    ),
    // A node that was fenced ends, whatever it did.
    (
        T0,
        &[
            (T0, Want::Misfires, Answer::Fenced),
            (T0, Want::End, Answer::Rested),
            (T0 - 1, Want::End, Answer::Rested),
        ],
    ),
    (
        T0,
        &[
            (T0, Want::Misfires, NONE_MISFIRED),
            (
                T0,
                Want::Acquire { no_later: T0 },
                Answer::Acquired(Some(1)),
            ),
            (T0, Want::Fire { entry: 1 }, Answer::Fenced),
            (T0, Want::End, Answer::Rested),
        ],
    ),
    // An Acquire looks no further than the node's end, and never before 1970.
    (
        T0,
        &[
            (T0 + 9, Want::Misfires, NONE_MISFIRED),
            (T0 + 9, Want::Acquire { no_later: T0 }, NONE_DUE),
            (T0 + 9, Want::End, Answer::Rested),
        ],
    ),
    (
        T0,
        &[
            (i64::MIN, Want::Misfires, NONE_MISFIRED),
            (i64::MIN, Want::Acquire { no_later: 0 }, NONE_DUE),
            (
                i64::MIN,
                Want::Rest {
                    until: i64::MIN + 1000,
                },
                Answer::Rested,
            ),
        ],
    ),
    (
        -5,
        &[
            (i64::MAX, Want::Misfires, NONE_MISFIRED),
            (i64::MAX, Want::Acquire { no_later: 0 }, NONE_DUE),
            (i64::MAX, Want::End, Answer::Rested),
        ],
    ),
];

#[test]
fn nodes_do_their_steps(rt: HostRuntime) -> Result<(), AllocError> {
    check(&rt, rt.alloc(), ROWS)
}
