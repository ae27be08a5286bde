//! Words that are no call, with what is wrong with them.
use qz_civil::Text;
use qz_words::{WordFault, read_history, read_serve, read_words};
use std::alloc::{AllocError, Global};

/// Words, and their fault.
type BadRow = (&'static [&'static str], WordFault);

const NO_CALLS: &[BadRow] = &[
    (&["fly"], WordFault::UnknownCommand),
    (&["Times", "0", "1"], WordFault::UnknownCommand),
    (&["init", "x"], WordFault::WrongCount { found: 1 }),
    (&["migrate", "x"], WordFault::WrongCount { found: 1 }),
    (&["times", "0"], WordFault::WrongCount { found: 1 }),
    (
        &["times", "x", "0", "1"],
        WordFault::WrongCount { found: 3 },
    ),
    (&["times", "-1", "x"], WordFault::BadNumber { place: 1 }),
    (
        &["times", "7258118400000", ""],
        WordFault::BadNumber { place: 2 },
    ),
    (
        &["times", "00000000000000000000", "1"],
        WordFault::BadNumber { place: 1 },
    ),
    (
        &["times", "9999999999999999999", "0"],
        WordFault::OutOfRange { place: 1 },
    ),
    (
        &["times", "7258118400000", "1"],
        WordFault::OutOfRange { place: 1 },
    ),
    (&["times", "0", "0"], WordFault::OutOfRange { place: 2 }),
    (&["times", "0", "1001"], WordFault::OutOfRange { place: 2 }),
    (&["run", "1", "0"], WordFault::WrongCount { found: 2 }),
    (
        &["run", "1", "0", "1", "1", "1"],
        WordFault::WrongCount { found: 5 },
    ),
    (&["run", "17", "0", "x"], WordFault::BadNumber { place: 3 }),
    (&["run", "17", "0", "1"], WordFault::OutOfRange { place: 1 }),
    (&["run", "0", "0", "1"], WordFault::OutOfRange { place: 1 }),
    (
        &["run", "1", "7258118400000", "7258118400000"],
        WordFault::OutOfRange { place: 2 },
    ),
    (&["run", "1", "2", "1"], WordFault::OutOfRange { place: 3 }),
    (
        &["run", "1", "0", "1", "0"],
        WordFault::OutOfRange { place: 4 },
    ),
    (
        &["run", "1", "0", "1", "1000001"],
        WordFault::OutOfRange { place: 4 },
    ),
    (
        &["gen", "7", "1001", "7"],
        WordFault::OutOfRange { place: 2 },
    ),
    (
        &["gen", "7", "100", "0"],
        WordFault::OutOfRange { place: 3 },
    ),
    (&["gen", "7", "100"], WordFault::WrongCount { found: 2 }),
];

/// The same of `serve`.
const NO_SERVES: &[BadRow] = &[
    (&[], WordFault::UnknownCommand),
    (&["run", "1", "0", "1"], WordFault::UnknownCommand),
    (&["serve", "1"], WordFault::WrongCount { found: 1 }),
    (
        &["serve", "1", "0", "1", "1"],
        WordFault::WrongCount { found: 4 },
    ),
    (&["serve", "17", "x"], WordFault::BadNumber { place: 2 }),
    (
        &["serve", "17", "0", "x"],
        WordFault::BadNumber { place: 3 },
    ),
    (
        &["serve", "17", "7258118400000"],
        WordFault::OutOfRange { place: 1 },
    ),
    (
        &["serve", "1", "7258118400000"],
        WordFault::OutOfRange { place: 2 },
    ),
    (
        &["serve", "1", "0", "0"],
        WordFault::OutOfRange { place: 3 },
    ),
    (
        &["serve", "1", "0", "1001"],
        WordFault::OutOfRange { place: 3 },
    ),
];

/// The same of `history`.
const NO_HISTORIES: &[BadRow] = &[
    (&[], WordFault::UnknownCommand),
    (&["list"], WordFault::UnknownCommand),
    (&["history"], WordFault::WrongCount { found: 0 }),
    (&["history", "x", "0"], WordFault::WrongCount { found: 2 }),
    (&["history", "-1"], WordFault::BadNumber { place: 1 }),
    (&["history", ""], WordFault::BadNumber { place: 1 }),
    (
        &["history", "00000000000000000000"],
        WordFault::BadNumber { place: 1 },
    ),
];

/// Whose words they are to be.
#[derive(Clone, Copy)]
enum Grammar {
    Calls,
    Serve,
    History,
}

fn texts_of(alloc: Global, words: &[&str]) -> Result<Vec<Text>, AllocError> {
    let mut texts = Vec::new(alloc);
    for word in words {
        let text = Text::from_str(alloc, word)?;
        texts.push(text)?;
    }
    Ok(texts)
}

// What is wrong with words, by this grammar.
fn fault_of(alloc: Global, words: &[&str], grammar: Grammar) -> Option<WordFault> {
    match texts_of(alloc, words) {
        Ok(texts) => {
            let fault = match grammar {
                Grammar::Calls => read_words(&texts).err(),
                Grammar::Serve => read_serve(&texts).err(),
                Grammar::History => read_history(&texts).err(),
            };
            drop(texts);
            fault
        }
        Err(AllocError) => None,
    }
}

// The number behind which these words ask for a history.
fn history_from(alloc: Global, words: &[&str]) -> Option<u64> {
    match texts_of(alloc, words) {
        Ok(texts) => {
            let from = read_history(&texts).ok();
            drop(texts);
            from
        }
        Err(AllocError) => None,
    }
}

#[test]
fn words_have_their_faults(rt: HostRuntime) {
    for &(words, fault) in NO_CALLS {
        assert!(rt;
            fault_of(rt.alloc(), words, Grammar::Calls) == Some(fault),
            "at {words:?}"
        );
    }
    for &(words, fault) in NO_SERVES {
        assert!(rt;
            fault_of(rt.alloc(), words, Grammar::Serve) == Some(fault),
            "at {words:?}"
        );
    }
    for &(words, fault) in NO_HISTORIES {
        assert!(rt;
            fault_of(rt.alloc(), words, Grammar::History) == Some(fault),
            "at {words:?}"
        );
    }
}

#[test]
fn a_history_begins_behind_its_number(rt: HostRuntime) {
    assert!(rt; history_from(rt.alloc(), &["history", "0"]) == Some(0));
    assert!(rt;
        history_from(rt.alloc(), &["history", "9999999999999999999"])
            == Some(9_999_999_999_999_999_999)
    );
    assert!(rt; history_from(rt.alloc(), &["history", "0017"]) == Some(17));
}
