//! Laws of the definitions: functions that do nothing, and whose contracts say what always holds.
ghost use Rattle.std.specs.Prelude.{◌≡◌, ◌≢◌, ◌^◌, ◌<◌, List, ◌∷◌, All, length, map, Option, Some, Ok, Err};
ghost use Rattle.casm_word.specs.declared.Word.{Word};
ghost use Rattle.casm_word.specs.Transition.{Memory, next};
ghost use Rattle.casm_word.specs.Run.{LegalRun};
ghost use Rattle.segments.specs.declared.RelState.{RelState};
ghost use Rattle.segments.specs.Memory.{RunMemory, IsMemory, Grows, cell, size};
ghost use Rattle.builtin_segments.specs.Rules.{Rules};
ghost use Rattle.run_steps.specs.declared.operands.Found.{Found};
ghost use Rattle.run_steps.specs.Operands.{instruction_in};
ghost use Rattle.segments.specs.declared.Place.{Place};
ghost use Rattle.segments.specs.declared.Value.{Value};
ghost use Rattle.casm_word.specs.declared.Flags.{Flags};
ghost use Rattle.run_steps.specs.declared.cause.Spot.TheVariants.{Op0, Op1};
ghost use Rattle.run_steps.specs.declared.cause.StepCause.TheVariants.{NotPointer};
ghost use Rattle.run_steps.specs.Next.{place_sum, next_by, next_in};
ghost use Rattle.run_steps.specs.Deduction.{reads, deduction, before_op1, deduced};
ghost use Rattle.run_steps.specs.Cases.{called_op0, sought_op0, sought_op1, found_by_cases};
ghost use Rattle.run_steps.specs.Step.{found_operands, all_placed, step};
ghost use Rattle.run_steps.specs.ValueRun.{ValueRun, HoldsRelocated, InSegments, registers_at};

/// What a step and a run over values are once the segments are laid out: in every memory of numbers that holds the
/// relocated cells, the same step and a legal run over numbers.
pub fn relocation_laws()
    ensures step { (m : RunMemory) (cells : Memory) (s t : RelState) → IsMemory m → HoldsRelocated m cells →
        next_in m s ≡ Ok t → next cells (registers_at m.sizes s) ≡ Some (registers_at m.sizes t) }
    ensures run { (m : RunMemory) (cells : Memory) (states : List RelState) → IsMemory m → HoldsRelocated m cells →
        ValueRun m states → LegalRun cells (map (registers_at m.sizes) states) }
{}

/// What a step does to the memory: every cell stays, the program's segment keeps its size, and the next state is the
/// transition function's in this memory and in each later one.
pub fn growing_laws()
    ensures later { (m n : RunMemory) (s t : RelState) → Grows m n → next_in m s ≡ Ok t → next_in n s ≡ Ok t }
    ensures grows { (rules : Rules) (m n : RunMemory) (s t : RelState) → step rules m s ≡ Ok (n, t) → Grows m n }
    ensures next { (rules : Rules) (m n : RunMemory) (s t : RelState) → step rules m s ≡ Ok (n, t) → next_in n s ≡ Ok t }
    ensures program { (rules : Rules) (m n : RunMemory) (s t : RelState) → step rules m s ≡ Ok (n, t) →
        size n 0 ≡ size m 0 }

    // An offset of fp that a pointer can have stays one.
    ensures memory { (rules : Rules) (m n : RunMemory) (s t : RelState) → IsMemory m → InSegments (length m.sizes) s →
        s.fp.off < 2 ^ 32 → step rules m s ≡ Ok (n, t) → IsMemory n × (t.fp.off < 2 ^ 32) }
{}

/// Where the segments of a state are there, so are those of the next state, and of all states of a run.
pub fn inside_laws()
    ensures next { (m : RunMemory) (s t : RelState) → IsMemory m → InSegments (length m.sizes) s →
        next_in m s ≡ Ok t → InSegments (length m.sizes) t }
    ensures run { (m : RunMemory) (s : RelState) (rest : List RelState) → IsMemory m → ValueRun m (s ∷ rest) →
        InSegments (length m.sizes) s → All (InSegments (length m.sizes)) (s ∷ rest) }
{}

/// What a step reads of the greater memory are the operands that it found out in the memory before.
pub fn reread_law()
    ensures { (rules : Rules) (m : RunMemory) (s : RelState) (found : Found) (n : RunMemory) →
        found_operands m s ≡ Ok found → all_placed rules m found ≡ Ok n →
        (w : Word) × (instruction_in (cell m s.pc) ≡ Ok w)
        × (next_in n s ≡ next_by w.flags s found.dst found.op0 found.op1) }
{}

/// What the table of deduction gives is what the code finds case by case: op0 before op1 is read, op0, op1, and all operands
/// of a step.
pub fn deduction_laws()
    ensures called { (f : Flags) (s : RelState) (dst op0 op1 : Option Value) →
        deduced before_op1 Op0 (reads f s dst op0 op1) ≡ Ok (called_op0 f s op0) }
    ensures op0 { (f : Flags) (s : RelState) (dst op0 op1 : Option Value) →
        deduced deduction Op0 (reads f s dst op0 op1) ≡ sought_op0 f dst (called_op0 f s op0) op1 }
    ensures op1 { (f : Flags) (s : RelState) (dst op0 op1 : Option Value) →
        deduced deduction Op1 (reads f s dst op0 op1) ≡ sought_op1 f dst op0 op1 }
    ensures all { (m : RunMemory) (s : RelState) → found_operands m s ≡ found_by_cases m s }
{}

/// The place after so many cells is never refused because the sum isn't a pointer.
pub fn sum_law()
    ensures { (p : Place) (v : Value) → place_sum p v ≢ Err NotPointer }
{}
