//! Laws of the definitions: functions that do nothing, and whose contracts say what always holds.

ghost use Rattle.std.specs.Prelude.{◌≡◌, ◌<◌, ◌+◌, ◌↔◌, ℕ, Some, All, length, take, drop, option_map, slice_index_or};
ghost use Rattle.goldilocks.specs.Field.{prime};
ghost use Rattle.casm_word.specs.declared.Flags.{Flags};
ghost use Rattle.casm_word.specs.Word.{first_broken};
ghost use Rattle.casm_word.specs.Transition.{Memory, Registers, next};
ghost use Rattle.cpu_rows.specs.Columns.{Columns, values, IsRow};
ghost use Rattle.cpu_rows.specs.Equations.{Equation, equations, EquationHolds, failing_number};
ghost use Rattle.cpu_rows.specs.Steps.{HasFlags, IsRowOf, Tells, GoesOnBehind, with_res, equation_of};

/// The equations are numbered 1 to 39 in their order. The first fifteen hold exactly where each flag is 0 or 1. Of the
/// last eight the least that fails is the one that excludes the first broken shape, and none fails exactly where no
/// shape is broken.
pub fn equation_laws()
    ensures names { (r : Columns) (after : Registers) (d : Equation) → (length (equations r after) ≡ 39)
        × ((k : ℕ) → k < 39 → (slice_index_or (equations r after) k d).number ≡ k + 1) }
    ensures flags { (r : Columns) (after : Registers) →
        All EquationHolds (take 15 (equations r after)) ↔ ((f : Flags) × HasFlags r f) }
    ensures shapes { (r : Columns) (after : Registers) (f : Flags) → HasFlags r f →
        option_map equation_of (first_broken f) ≡ failing_number (drop 31 (equations r after)) }
{}

/// The values of a row determine it.
pub fn value_laws()
    ensures { (a b : Columns) → IsRow a → IsRow b → values a ≡ values b → a ≡ b }
{}

/// How many rows tell a step. The row of a step is one and tells it, and a row that tells a step is of a legal one. Two
/// rows that tell the same step agree but for res, and for t1 as it follows from res. They agree in res too, except
/// where a conditional jump goes on to the instruction that lies after it. There each number may stand in res.
pub fn row_laws()
    ensures tells { (m : Memory) (s after : Registers) (r : Columns) →
        IsRow r → IsRowOf m s r → next m s ≡ Some after → Tells m s after r }
    ensures legal { (m : Memory) (s after : Registers) (r : Columns) → Tells m s after r → next m s ≡ Some after }
    ensures one_row_of { (m : Memory) (s : Registers) (a b : Columns) → IsRowOf m s a → IsRowOf m s b → a ≡ b }
    ensures but_res { (m : Memory) (s after : Registers) (a b : Columns) →
        Tells m s after a → Tells m s after b → a ≡ with_res b a.res }
    ensures determined { (m : Memory) (s after : Registers) (a b : Columns) →
        Tells m s after a → Tells m s after b → (GoesOnBehind a after → ⊥) → a ≡ b }
    ensures free { (m : Memory) (s after : Registers) (r : Columns) →
        Tells m s after r → GoesOnBehind r after → (x : ℕ) → x < prime → Tells m s after (with_res r x) }
{}
