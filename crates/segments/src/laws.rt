//! Laws of the definitions: functions that do nothing, and whose contracts say what always holds.
ghost use Rattle.std.specs.declared.cmp.Ordering.TheVariants.{Less, Equal};
ghost use Rattle.std.specs.Prelude.{◌≡◌, ◌≢◌, ◌↔◌, ℕ, ℤ, ◌<◌, ◌≤◌, List, Option, Some, None, IsSome, IsTrue, IfOk, IfSome, sum, slice_get, option_map};
ghost use Rattle.goldilocks.specs.declared.Felt.{Felt};
ghost use Rattle.goldilocks.specs.Field.{prime, field_add, field_sub, field_mul, field_of_int};
ghost use Rattle.segments.specs.declared.Place.{Place};
ghost use Rattle.segments.specs.declared.Value.{Value};
ghost use Rattle.segments.specs.declared.Value.TheVariants.{Num, Ptr};
ghost use Rattle.segments.specs.Values.{place, place_cmp, IsBefore, value_sum, value_difference, value_product, value_quotient, moved_place, same_value};
ghost use Rattle.segments.specs.Memory.{RunMemory, IsMemory, Grows, segment_limit, total_limit, cell, program_memory, with_segment, with_cell};
ghost use Rattle.segments.specs.Relocation.{address, relocated};

use crate::{Place, SEGMENT_LIMIT, TOTAL_LIMIT};

/// Places are ordered by segment and then by offset, in the code as in the definitions.
pub fn order_of_places()
    ensures less { (p q : Place) → (⟦<Place as Ord>⟧.cmp p q ≡ Less) ↔ IsBefore p q }
    ensures equal { (p q : Place) → (⟦<Place as Ord>⟧.cmp p q ≡ Equal) ↔ (p ≡ q) }
    ensures eq { (p q : Place) → IsTrue (⟦<Place as PartialEq>⟧.eq p q) ↔ (p ≡ q) }
    ensures defined { (p q : Place) → ⟦<Place as Ord>⟧.cmp p q ≡ place_cmp p q }
{}

/// The code's constants are the limits of the definitions.
pub fn limit_laws()
    ensures segments { SEGMENT_LIMIT ≡ segment_limit }
    ensures total { TOTAL_LIMIT ≡ total_limit }
{}

/// What the memory's definitions say of single cells: a written cell holds its value, and every other stays.
pub fn memory_laws()
    ensures written { (m : RunMemory) (p : Place) (v : Value) → cell (with_cell m p v) p ≡ Some v }
    ensures others { (m : RunMemory) (p q : Place) (v : Value) → q ≢ p → cell (with_cell m p v) q ≡ cell m q }
    ensures added { (m : RunMemory) (p : Place) → cell (with_segment m) p ≡ cell m p }
    ensures words { (words : List Felt) (off : ℕ) →
        cell (program_memory words) (place 0 off) ≡ option_map (λ x. Num x) (slice_get words off) }
    ensures only_words { (words : List Felt) (p : Place) → p.seg ≢ 0 → cell (program_memory words) p ≡ None }

    // The sizes and the cells are all that a memory is.
    ensures whole { (m n : RunMemory) → m.sizes ≡ n.sizes → ((p : Place) → cell m p ≡ cell n p) → m ≡ n }
    ensures grows { (l m n : RunMemory) → Grows l m → Grows m n → Grows l n }
{}

/// Arithmetic that succeeds commutes with relocation: an answer's number is the field's operation on the operands'
/// numbers, for all sizes that segments can have.
pub fn arithmetic_laws()
    ensures sum { (sizes : List ℕ) (a b : Value) → sum sizes ≤ total_limit →
        IfOk (value_sum a b) (λ v. relocated sizes v ≡ field_add (relocated sizes a) (relocated sizes b)) }
    ensures difference { (sizes : List ℕ) (a b : Value) → sum sizes ≤ total_limit →
        IfOk (value_difference a b) (λ v. relocated sizes v ≡ field_sub (relocated sizes a) (relocated sizes b)) }
    ensures product { (sizes : List ℕ) (a b : Value) →
        IfOk (value_product a b) (λ v. relocated sizes v ≡ field_mul (relocated sizes a) (relocated sizes b)) }
    ensures quotient { (sizes : List ℕ) (a b : Value) →
        IfOk (value_quotient a b) (λ v. field_mul (relocated sizes v) (relocated sizes b) ≡ relocated sizes a) }
    ensures moved { (sizes : List ℕ) (p : Place) (by : ℤ) → sum sizes ≤ total_limit →
        IfSome (moved_place p by) (λ q. address sizes q ≡ field_add (address sizes p) (field_of_int by)) }

    // Two values are one exactly where they are the same number or the same pointer.
    ensures same { (a b : Value) → IsTrue (same_value a b) ↔ (a ≡ b) }
{}

/// No two places that hold values share an address, and each address lies from 1 to the sum of the sizes.
pub fn address_laws()
    ensures distinct { (m : RunMemory) (p q : Place) → IsMemory m → IsSome (cell m p) → IsSome (cell m q) →
        address m.sizes p ≡ address m.sizes q → p ≡ q }
    ensures from_one { (sizes : List ℕ) (p : Place) → 1 ≤ address sizes p }
    ensures to_total { (m : RunMemory) (p : Place) → IsMemory m → IsSome (cell m p) →
        address m.sizes p ≤ sum m.sizes }

    // Held values relocate to numbers of the field. A pointer's isn't 0, and one value has one number.
    ensures in_field { (m : RunMemory) (p : Place) (v : Value) → IsMemory m → cell m p ≡ Some v →
        relocated m.sizes v < prime }
    ensures not_zero { (sizes : List ℕ) (p : Place) → relocated sizes (Ptr p) ≢ 0 }
    ensures equal { (sizes : List ℕ) (v w : Value) → v ≡ w → relocated sizes v ≡ relocated sizes w }
{}
