//! Laws of the definitions: functions that do nothing, and whose contracts say what always holds.
ghost use Rattle.std.specs.Prelude.{◌≡◌, ℕ, ◌+◌, ◌≤◌, All, List, Some, IsSome, length, sum, slice_get};
ghost use Rattle.std.specs.List.Sorted.{IsStrictlyIncreasing};
ghost use Rattle.goldilocks.specs.declared.Felt.{Felt};
ghost use Rattle.goldilocks.specs.Cells.{memory_of, addresses, cells_from};
ghost use Rattle.trace_files.specs.CellList.{CanBeListed};
ghost use Rattle.trace_files.specs.TraceFile.{IsState};
ghost use Rattle.casm_word.specs.Transition.{Registers};
ghost use Rattle.casm_word.specs.Run.{LegalRun};
ghost use Rattle.segments.specs.declared.RelState.{RelState};
ghost use Rattle.segments.specs.declared.Value.TheVariants.{Num};
ghost use Rattle.segments.specs.Values.{place};
ghost use Rattle.segments.specs.Memory.{RunMemory, IsMemory, cell, total_limit};
ghost use Rattle.segments.specs.Relocation.{address};
ghost use Rattle.program_file.specs.declared.Builtins.{Builtins};
ghost use Rattle.builtin_segments.specs.declared.layout.Stops.{Stops};
ghost use Rattle.builtin_segments.specs.Layout.{builtin_count};
ghost use Rattle.run_steps.specs.ValueRun.{HoldsRelocated, ValueRun};
ghost use Rattle.relocation.specs.Relocated.{relocated_cells, relocated_run, shown_places, IsHeldCell};

/// The relocated cells of a memory: they are its held cells and no others, at ascending addresses from 1 on.
pub fn cell_laws()
    // Every held cell is among them, with its relocated value, and no two share an address.
    ensures holds { (m : RunMemory) → IsMemory m → HoldsRelocated m (memory_of (relocated_cells m)) }
    ensures held { (m : RunMemory) → IsMemory m → All (IsHeldCell m) (relocated_cells m) }
    ensures ascending { (m : RunMemory) → IsMemory m → IsStrictlyIncreasing (addresses (relocated_cells m)) }
    ensures listed { (m : RunMemory) → IsMemory m → CanBeListed (relocated_cells m) }
    ensures bounds { (m : RunMemory) → IsMemory m →
        All (λ c. (1 ≤ c.addr.number) × (c.addr.number ≤ sum m.sizes)) (relocated_cells m) }
    ensures low { (m : RunMemory) → IsMemory m → All (λ c. c.addr.number ≤ total_limit) (relocated_cells m) }

    // The words that segment 0 holds stand at the addresses 1, 2 and on.
    ensures words { (m : RunMemory) (words : List Felt) → IsMemory m →
        ((i : ℕ) (x : Felt) → slice_get words i ≡ Some x → cell m (place 0 i) ≡ Some (Num x)) →
        All (λ c. memory_of (relocated_cells m) c.addr.number ≡ Some c.value.number) (cells_from 1 words) }
    ensures word_address { (sizes : List ℕ) (off : ℕ) → address sizes (place 0 off) ≡ 1 + off }
{}

/// The relocated run: it is legal in its own cells, its shown cells ascend and are held, and its registers are numbers of
/// the field.
pub fn run_laws()
    // What is a run over values is a legal run once the segments have addresses.
    ensures legal { (b : Builtins) (stops : Stops) (m : RunMemory) (states : List RelState) → IsMemory m →
        ValueRun m states →
        LegalRun (memory_of (relocated_run b stops m states).cells) (relocated_run b stops m states).states }
    ensures shown_count { (b : Builtins) (stops : Stops) (m : RunMemory) (states : List RelState) →
        length (relocated_run b stops m states).shown ≡ 2 + builtin_count b }
    ensures shown_ascend { (b : Builtins) (stops : Stops) (m : RunMemory) (states : List RelState) →
        IsStrictlyIncreasing (relocated_run b stops m states).shown }
    ensures shown_held { (b : Builtins) (stops : Stops) (m : RunMemory) (states : List RelState) → IsMemory m →
        All (λ p. IsSome (cell m p)) (shown_places b) →
        All (λ a. IsSome (memory_of (relocated_cells m) a)) (relocated_run b stops m states).shown }

    // A legal run whose first state is in the field stays there.
    ensures in_field { (m : RunMemory) (states : List Registers) → LegalRun (memory_of (relocated_cells m)) states →
        ((first : Registers) → slice_get states 0 ≡ Some first → IsState first) → All IsState states }
{}
