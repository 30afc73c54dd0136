//! Laws of the start of a run and of the placing of cells.
ghost use Rattle.std.specs.Prelude.{◌≡◌, ◌≢◌, ℕ, ◌+◌, ◌<◌, ◌≤◌, Option, Some, Result, Ok, length, slice_get, option_map};
ghost use Rattle.segments.specs.declared.Place.{Place};
ghost use Rattle.segments.specs.declared.Value.{Value};
ghost use Rattle.segments.specs.declared.Value.TheVariants.{Num};
ghost use Rattle.segments.specs.Values.{place};
ghost use Rattle.segments.specs.Memory.{RunMemory, IsMemory, Grows, cell, size};
ghost use Rattle.segments.specs.Columns.{HasOffset};
ghost use Rattle.program_file.specs.Listing.{Listing, IsProgram};
ghost use Rattle.hint_cells.specs.Limits.{extra_limit};
ghost use Rattle.builtin_segments.specs.Layout.{execution, builtin_count};
ghost use Rattle.builtin_segments.specs.Start.{start_stack, start_memory, first_state};
ghost use Rattle.builtin_segments.specs.Rules.{Rules, adding};

/// The memory in which a program starts is a memory. Segment 0 holds the words, the execution segment the start stack, and
/// all others are empty. The segments that the first state names are there.
pub fn start_laws()
    ensures memory { (p : Listing) (extra : ℕ) → IsProgram p → extra ≤ extra_limit → IsMemory (start_memory p extra) }
    ensures count { (p : Listing) (extra : ℕ) → IsProgram p → extra ≤ extra_limit →
        length (start_memory p extra).sizes ≡ 2 + builtin_count p.builtins + extra }
    ensures program_size { (p : Listing) (extra : ℕ) → IsProgram p → extra ≤ extra_limit →
        size (start_memory p extra) 0 ≡ length p.words }
    ensures stack_size { (p : Listing) (extra : ℕ) → IsProgram p → extra ≤ extra_limit →
        size (start_memory p extra) execution ≡ 2 + builtin_count p.builtins }
    ensures empty { (p : Listing) (extra seg : ℕ) → IsProgram p → extra ≤ extra_limit → execution < seg →
        size (start_memory p extra) seg ≡ 0 }
    ensures words { (p : Listing) (extra off : ℕ) → IsProgram p → extra ≤ extra_limit →
        cell (start_memory p extra) (place 0 off) ≡ option_map (λ x. Num x) (slice_get p.words off) }
    ensures stack { (p : Listing) (extra off : ℕ) → IsProgram p → extra ≤ extra_limit →
        cell (start_memory p extra) (place execution off) ≡ slice_get (start_stack p.builtins) off }
    ensures first_pc { (p : Listing) (extra : ℕ) → IsProgram p → extra ≤ extra_limit →
        (first_state p).pc.seg < length (start_memory p extra).sizes }
    ensures first_ap { (p : Listing) (extra : ℕ) → IsProgram p → extra ≤ extra_limit →
        (first_state p).ap.seg < length (start_memory p extra).sizes }
    ensures first_fp { (p : Listing) (extra : ℕ) → IsProgram p → extra ≤ extra_limit →
        (first_state p).fp.seg < length (start_memory p extra).sizes }
{}

/// What is added to a memory is a later memory. It holds the value at the place, and every other cell stays. Segment 0
/// keeps its size.
pub fn adding_laws()
    ensures memory { (rules : Rules) (m : RunMemory) (p : Place) (v : Value) (n : RunMemory) → IsMemory m → HasOffset v →
        adding rules m p v ≡ Ok n → IsMemory n }
    ensures grows { (rules : Rules) (m : RunMemory) (p : Place) (v : Value) (n : RunMemory) →
        adding rules m p v ≡ Ok n → Grows m n }
    ensures holds { (rules : Rules) (m : RunMemory) (p : Place) (v : Value) (n : RunMemory) →
        adding rules m p v ≡ Ok n → cell n p ≡ Some v }
    ensures others { (rules : Rules) (m : RunMemory) (p : Place) (v : Value) (n : RunMemory) (q : Place) →
        adding rules m p v ≡ Ok n → q ≢ p → cell n q ≡ cell m q }
    ensures program_size { (rules : Rules) (m : RunMemory) (p : Place) (v : Value) (n : RunMemory) →
        adding rules m p v ≡ Ok n → size n 0 ≡ size m 0 }
{}
