//! What a public file spells, as the contract of a function that does nothing.
ghost use Rattle.std.specs.Prelude.{◌≡◌, ◌↔◌, ◌⊎◌, ℕ, List, Result};
ghost use Rattle.public_input.specs.declared.fault.PublicFault.{PublicFault};
ghost use Rattle.public_input.specs.Statement.{Statement};
ghost use Rattle.public_input.specs.Valid.{KeepsLimits};
ghost use Rattle.public_input.specs.Spelling.{SpellsPublic};
ghost use Rattle.public_input.specs.Reading.{reading};
ghost use Rattle.public_input.specs.Written.{written};

/// What is read of bytes is what they spell, and they spell one public input at most. They have a fault exactly where
/// they spell none. What is written of a valid public input spells it.
pub fn spelling_laws()
    ensures exact { (bytes : List ℕ) (s : Statement) → (reading bytes ≡ Ok s) ↔ SpellsPublic bytes s }
    ensures one { (bytes : List ℕ) (s t : Statement) → SpellsPublic bytes s → SpellsPublic bytes t → s ≡ t }
    ensures spells_nothing { (bytes : List ℕ) (fault : PublicFault) → reading bytes ≡ Err fault → (s : Statement) → ¬ SpellsPublic bytes s }
    ensures spelled_or_faulty { (bytes : List ℕ) → ((s : Statement) × SpellsPublic bytes s) ⊎ ((fault : PublicFault) × (reading bytes ≡ Err fault)) }
    ensures spells { (s : Statement) → KeepsLimits s → SpellsPublic (written s) s }
    ensures read_back { (s : Statement) → KeepsLimits s → reading (written s) ≡ Ok s }
{}
