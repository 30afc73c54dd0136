//! A law of numbers in files: a function that does nothing, and whose contract says what always holds.

ghost use Rattle.std.specs.Prelude.{◌+◌, ◌<◌, ◌≤◌, ◌↔◌, ℕ, All, List, length};
ghost use Rattle.goldilocks.specs.Field.{prime};
ghost use Rattle.file_records.specs.Numbers.{IsNumberAt, number_at};

/// Of bytes, each of which is below 256, the number at a place is one of the field exactly where it is below p.
pub fn number_laws()
    ensures { (bytes : List ℕ) (place : ℕ) → All (λ byte. byte < 256) bytes → place + 8 ≤ length bytes →
        (IsNumberAt bytes place ↔ (number_at bytes place < prime)) }
{}
