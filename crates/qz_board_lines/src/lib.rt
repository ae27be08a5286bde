//! The lines that show what a board shows.
#![tactic(auto)]

ghost use Rattle.std.specs.Prelude.{◌≡◌, ◌++◌, ◌∷◌, [], IfOk, OnOk, codes, string_bytes};
ghost use Rattle.std.specs.Fmt.{decimal, signed_decimal};
ghost use Rattle.std.specs.List.{flat_map};
ghost use Rattle.qz_report.specs.Optional.{next_text};
ghost use Rattle.qz_board_lines.specs.Lines.{board_text};

use qz_board::Glance;
use qz_civil::{NoMemory, Text};
use qz_report::Next;
use std::alloc::{AllocError, Global};
use std::fmt::Write;

/// Room for the line, so that it takes memory once.
const USUAL_LENGTH: usize = 128;

/// The line `board ENTRIES executing N jobs N triggers N next NEXT at M`, with its line feed. NEXT and M are in ms since
/// 1970-01-01T00:00:00Z, and NEXT is `none` where no trigger waits.
pub fn board_line(alloc: Global, glance: &Glance) -> Result<Text, NoMemory>
    ensures { IfOk result (λ text. text ≡ board_text glance.now) }
{
    let mut text = String::with_capacity(alloc, USUAL_LENGTH)?;
    push_line(&mut text, glance)?;
    Ok(Text::from_string(text))
}

/// The lines of these glances, in their order.
pub fn board_lines(alloc: Global, glances: &[Glance]) -> Result<Text, NoMemory>
    ensures { IfOk result (λ text. text ≡ flat_map board_text glances.now) }
{
    let mut text = String::new(alloc);
    for glance in glances {
        push_line(&mut text, glance)?;
    }
    Ok(Text::from_string(text))
}

fn push_line(text: &mut String, glance: &Glance) -> Result<(), AllocError>
    ensures { OnOk result (string_bytes text.new ≡ string_bytes text.old ++ board_text glance.now) }
{
    push_counts(text, glance)?;
    push_rows(text, glance)?;
    push_moments(text, glance)
}

fn push_counts(text: &mut String, glance: &Glance) -> Result<(), AllocError>
    ensures { OnOk result (string_bytes text.new ≡ string_bytes text.old ++ codes "board " ++ decimal glance.now.entries ++ codes " executing " ++ decimal glance.now.executing) }
{
    write!(
        text,
        "board {} executing {}",
        glance.entries, glance.executing
    )
}

fn push_rows(text: &mut String, glance: &Glance) -> Result<(), AllocError>
    ensures { OnOk result (string_bytes text.new ≡ string_bytes text.old ++ codes " jobs " ++ decimal glance.now.jobs ++ codes " triggers " ++ decimal glance.now.triggers) }
{
    write!(text, " jobs {} triggers {}", glance.jobs, glance.triggers)
}

fn push_moments(text: &mut String, glance: &Glance) -> Result<(), AllocError>
    ensures { OnOk result (string_bytes text.new ≡ string_bytes text.old ++ codes " next " ++ next_text glance.now.next ++ codes " at " ++ signed_decimal glance.now.last ++ 10 ∷ []) }
{
    write!(text, " next {} at {}\n", Next(glance.next), glance.last)
}
