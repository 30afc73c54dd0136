//! Laws of hints and their files.
ghost use Rattle.std.specs.Prelude.{◌≡◌, ◌↔◌, ◌≤◌, ℕ, List, length, Ok};
ghost use Rattle.hint_cells.specs.Limits.{hints_limit, extra_limit, hint_cell_limit};
ghost use Rattle.hint_cells.specs.HintList.{HintList, AreHints, hint_list};
ghost use Rattle.hint_cells.specs.Format.{SpellsHints, written};
ghost use Rattle.hint_cells.specs.Reading.{reading};

use crate::{EXTRA_LIMIT, HINT_CELL_LIMIT, HINTS_LIMIT, Hints};

/// The code's constants are the limits of the definitions.
pub fn limit_laws()
    ensures bytes { HINTS_LIMIT ≡ hints_limit }
    ensures extra { EXTRA_LIMIT ≡ extra_limit }
    ensures cells { HINT_CELL_LIMIT ≡ hint_cell_limit }
{}

/// The bounds that all hints keep.
pub fn bound_laws(_hints: &Hints)
    ensures extra { (hint_list _hints.now).extra ≤ extra_limit }
    ensures cells { length (hint_list _hints.now).cells ≤ hint_cell_limit }
{}

/// Reading gives hints exactly where the bytes spell some, and then those. So bytes spell one list of hints at most, and
/// there is a fault exactly where they spell none.
pub fn reading_laws()
    ensures exact { (bytes : List ℕ) (h : HintList) → SpellsHints bytes h ↔ (reading bytes ≡ Ok h) }
    ensures one { (bytes : List ℕ) (h k : HintList) → SpellsHints bytes h → SpellsHints bytes k → h ≡ k }
{}

/// What is written for hints spells them, and so they are read back.
pub fn written_laws()
    ensures spells { (h : HintList) → AreHints h → SpellsHints (written h) h }
    ensures read_back { (h : HintList) → AreHints h → reading (written h) ≡ Ok h }
{}
