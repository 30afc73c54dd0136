//! Laws of the definitions: functions that do nothing, and whose contracts say what always holds.

ghost use Rattle.std.specs.Prelude.{◌≡◌, ℕ, ◌≤◌, ◌↔◌, List, length, Ok, Err};
ghost use Rattle.std.specs.List.{AllByRecursion};
ghost use Rattle.std.specs.List.Sorted.{IsStrictlyIncreasing};
ghost use Rattle.casm_word.specs.Transition.{Registers};
ghost use Rattle.trace_files.specs.declared.fault.FileFault.{FileFault};
ghost use Rattle.trace_files.specs.TraceFile.{SpellsTrace, IsState, IsTraceFault, trace_bytes, trace_reading, state_limit};
ghost use Rattle.trace_files.specs.MemoryFile.{SpellsMemory, IsMemoryFault, memory_bytes, memory_reading, memory_cell_limit};
ghost use Rattle.goldilocks.specs.Cells.{addresses};
ghost use Rattle.goldilocks.specs.declared.Pair.{Pair};

/// All bytes either spell one value, which is what they are read as, or have one fault.
pub fn reading_laws()
    ensures trace { (bytes : List ℕ) (states : List Registers) →
        SpellsTrace bytes states ↔ (trace_reading bytes ≡ Ok states) }
    ensures trace_fault { (bytes : List ℕ) (fault : FileFault) →
        IsTraceFault bytes fault ↔ (trace_reading bytes ≡ Err fault) }
    ensures one_trace { (bytes : List ℕ) (s t : List Registers) →
        SpellsTrace bytes s → SpellsTrace bytes t → s ≡ t }
    ensures memory { (bytes : List ℕ) (cells : List Pair) →
        SpellsMemory bytes cells ↔ (memory_reading bytes ≡ Ok cells) }
    ensures memory_fault { (bytes : List ℕ) (fault : FileFault) →
        IsMemoryFault bytes fault ↔ (memory_reading bytes ≡ Err fault) }
    ensures one_memory { (bytes : List ℕ) (c d : List Pair) →
        SpellsMemory bytes c → SpellsMemory bytes d → c ≡ d }
{}

/// What is written spells the value, and is read back.
pub fn writing_laws()
    ensures trace { (states : List Registers) → 2 ≤ length states → length states ≤ state_limit →
        AllByRecursion IsState states → trace_reading (trace_bytes states) ≡ Ok states }
    ensures memory { (cells : List Pair) → length cells ≤ memory_cell_limit →
        IsStrictlyIncreasing (addresses cells) → memory_reading (memory_bytes cells) ≡ Ok cells }
{}
