//! Cron texts.
ghost use Rattle.std.specs.Prelude.{◌≡◌, Ok, Err, IfOk, IfErr, IsTrue};
ghost use Rattle.qz_civil.specs.Fields.{is_cron_fields};
ghost use Rattle.qz_cron_text.specs.Faults.{IsFirstFault};
ghost use Rattle.qz_cron_text.specs.Grammar.{IsText};
ghost use Rattle.qz_cron_text.specs.Printing.{canonical_text};
ghost use Rattle.qz_cron_text.specs.Reading.{reading};

use qz_civil::{CronFields, NoMemory, Text};
use qz_cron_text::CronError;
use std::alloc::Global;

/// Reads a text as `qz_cron_text::parse` does.
pub fn parse(text: &str) -> Result<CronFields, CronError>
    ensures found { IfOk result (λ fields. IsText text.now fields) }
    ensures only { (fields : CronFields) → IsText text.now fields → result ≡ Ok fields }
    ensures fault { IfErr result (λ fault. IsFirstFault text.now fault) }
    ensures only_fault { (fault : CronError) → IsFirstFault text.now fault → result ≡ Err fault }
    ensures exact { result ≡ reading text.now }
    ensures valid { IfOk result (λ fields. IsTrue (is_cron_fields fields)) }
{
    qz_cron_text::parse(text)
}

/// Prints fields as `qz_cron_text::print` does.
pub fn print(alloc: Global, fields: &CronFields) -> Result<Text, NoMemory>
    ensures text { IfOk result (λ text. text ≡ canonical_text fields.now) }
    ensures again { IsTrue (is_cron_fields fields.now) → IfOk result (λ text. reading text ≡ Ok fields.now) }
{
    qz_cron_text::print(alloc, fields)
}
