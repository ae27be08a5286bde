//! Fields of cron texts.
ghost use Rattle.std.specs.Prelude.{◌≡◌, ◌≤◌};
ghost use Rattle.std.specs.Int.{IsInRange};
ghost use Rattle.qz_civil.specs.Fields as spec;

use qz_civil::Field;

/// Answers as `Field::is_set` does.
pub fn is_set(field: Field, set: u64) -> bool
    ensures { result ≡ spec.is_set field set }
{
    field.is_set(set)
}

/// Answers as `qz_civil::nearest_weekday` does.
pub fn nearest_weekday(length: u32, day: u32, weekday: u32) -> u32
    requires day { IsInRange 1 31 day }
    requires length { 28 ≤ length }
    ensures { result ≡ spec.nearest length day weekday }
{
    qz_civil::nearest_weekday(length, day, weekday)
}
