//! Laws of cron texts. The functions do nothing: the contract of each is a theorem on the definitions.
ghost use Rattle.std.specs.Prelude.{◌≡◌, ◌↔◌, ℕ, List, length, IsTrue};
ghost use Rattle.qz_civil.specs.Fields.{is_cron_fields};
ghost use Rattle.qz_civil.specs.declared.fields.CronFields.{CronFields as Fields};
ghost use Rattle.qz_cron_text.specs.Faults.{IsFirstFault};
ghost use Rattle.qz_cron_text.specs.Grammar.{IsText};
ghost use Rattle.qz_cron_text.specs.declared.errors.CronError.{CronError as Faults};
ghost use Rattle.qz_cron_text.specs.Reading.{reading};
ghost use Rattle.qz_cron_text.specs.Printing.{canonical_text};

/// What is read of a text is what the grammar gives as its meaning, so a text has at most one meaning.
pub fn texts_have_one_meaning()
    ensures both_ways { (text : List ℕ) (fields : Fields) → (reading text ≡ Ok fields) ↔ IsText text fields }
    ensures one { (text : List ℕ) (fields others : Fields) → IsText text fields → IsText text others → fields ≡ others }
    ensures valid { (text : List ℕ) (fields : Fields) → IsText text fields → IsTrue (is_cron_fields fields) }
{}

/// What a text is refused for is its first fault as the grammar has it, so a text has at most one.
pub fn texts_have_one_first_fault()
    ensures both_ways { (text : List ℕ) (fault : Faults) → (reading text ≡ Err fault) ↔ IsFirstFault text fault }
    ensures one { (text : List ℕ) (fault other : Faults) → IsFirstFault text fault → IsFirstFault text other → fault ≡ other }
{}

/// The canonical text of valid fields, of which the years are four words, is read as these fields.
pub fn printed_texts_are_read_again()
    ensures { (fields : Fields) → length fields.years ≡ 4 → IsTrue (is_cron_fields fields) → reading (canonical_text fields) ≡ Ok fields }
{}
