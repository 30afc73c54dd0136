//! What the first failure of the equations is, as the contract of a function that does nothing.

ghost use Rattle.std.specs.Prelude.{◌≡◌, ◌↔◌, List, Some, None};
ghost use Rattle.goldilocks.specs.declared.Pair.{Pair};
ghost use Rattle.memory_columns.specs.declared.ListFault.{ListFault};
ghost use Rattle.memory_columns.specs.Equations.{M1, M2, M3, first_memory_fault, IsFirstFault};

/// There is no failure exactly where all three equations hold, and else it is the first.
pub fn memory_fault_laws()
    ensures none { (accesses sorted : List Pair) →
        (first_memory_fault accesses sorted ≡ None) ↔ (M1 sorted × M2 sorted × M3 accesses sorted) }
    ensures some { (accesses sorted : List Pair) (fault : ListFault) →
        first_memory_fault accesses sorted ≡ Some fault → IsFirstFault accesses sorted fault }
{}
