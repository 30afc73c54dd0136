//! Laws of tables files: functions that do nothing, and whose contracts say what always holds.

ghost use Rattle.std.specs.Prelude.{◌≡◌, ◌<◌, ◌≤◌, ◌↔◌, ℕ, List, All, Ok, Err, length};
ghost use Rattle.table_file.specs.Tables.{Contents, AreValid};
ghost use Rattle.table_file.specs.declared.TableFault.{TableFault};
ghost use Rattle.table_file.specs.Spelling.{spelling, SpellsTables};
ghost use Rattle.table_file.specs.Faults.{HasFault, IsFirstFault};
ghost use Rattle.table_file.specs.Reading.{reading};
ghost use Rattle.table_file.specs.Limits.{tables_limit};

/// Bytes spell one tables at most, and have then no fault. Valid tables are spelled by their spelling. Of faults one at
/// most comes first.
pub fn spelling_laws()
    ensures once { (bytes : List ℕ) (t u : Contents) → SpellsTables bytes t → SpellsTables bytes u → t ≡ u }
    ensures no_fault { (bytes : List ℕ) (t : Contents) → SpellsTables bytes t → (place : ℕ) (f : TableFault) → HasFault bytes place f → ⊥ }
    ensures spelled { (t : Contents) → AreValid t → All (λ r. length r.tilde ≡ 16) t.rows → SpellsTables (spelling t) t }
    ensures one_first { (bytes : List ℕ) (f g : TableFault) → IsFirstFault bytes f → IsFirstFault bytes g → f ≡ g }
{}

/// What bytes are read as is the tables exactly where they spell these, and a fault exactly where it is the first. So
/// bytes that spell no tables have a first fault. Lists of numbers stand for bytes here: the first law is of those whose
/// numbers are below 256, as all bytes are.
pub fn reading_laws()
    ensures tables { (bytes : List ℕ) (t : Contents) → All (λ b. b < 256) bytes → (reading bytes ≡ Ok t) ↔ SpellsTables bytes t }
    ensures fault { (bytes : List ℕ) (f : TableFault) → (reading bytes ≡ Err f) ↔ IsFirstFault bytes f }
{}

/// The most bytes that a tables file may have, as a number. Bytes that spell tables are no more.
pub fn limit_laws()
    ensures value { tables_limit ≡ 464519240 }
    ensures within { (bytes : List ℕ) (t : Contents) → SpellsTables bytes t → length bytes ≤ tables_limit }
{}
