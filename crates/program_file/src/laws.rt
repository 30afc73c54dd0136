//! Laws of programs and their files.
ghost use Rattle.std.specs.Prelude.{◌≡◌, ◌↔◌, ℕ, List, Ok};
ghost use Rattle.program_file.specs.Listing.{Listing, IsProgram, listing};
ghost use Rattle.program_file.specs.Format.{SpellsProgram, written};
ghost use Rattle.program_file.specs.Reading.{reading};

use crate::Program;

/// The bounds that each program keeps.
pub fn bound_laws(_program: &Program)
    ensures { IsProgram (listing _program.now) }
{}

/// Reading gives a program exactly where the bytes are one, and then that program. So bytes are one program at most, and
/// there is a fault exactly where they are none.
pub fn reading_laws()
    ensures exact { (bytes : List ℕ) (p : Listing) → SpellsProgram bytes p ↔ (reading bytes ≡ Ok p) }
    ensures one { (bytes : List ℕ) (p q : Listing) → SpellsProgram bytes p → SpellsProgram bytes q → p ≡ q }
{}

/// What is written for a program is that program, and so it is read back.
pub fn written_laws()
    ensures spells { (p : Listing) → IsProgram p → SpellsProgram (written p) p }
    ensures read_back { (p : Listing) → IsProgram p → reading (written p) ≡ Ok p }
{}
