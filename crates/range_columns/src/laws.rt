//! What the first failure of the equations is, as the contract of a function that does nothing.

ghost use Rattle.std.specs.Prelude.{◌≡◌, ◌↔◌, ℕ, List, Some, None};
ghost use Rattle.goldilocks.specs.declared.Felt.{Felt};
ghost use Rattle.range_columns.specs.declared.RangeFault.{RangeFault};
ghost use Rattle.range_columns.specs.Equations.{Q1, Q2, Q3, Q4, first_range_fault, IsFirstFault};

/// There is no failure exactly where all four equations hold, and else it is the first.
pub fn range_fault_laws()
    ensures none { (values sorted : List Felt) (least greatest : ℕ) →
        (first_range_fault values sorted least greatest ≡ None)
        ↔ (Q1 sorted least × Q2 sorted × Q3 sorted greatest × Q4 values sorted) }
    ensures some { (values sorted : List Felt) (least greatest : ℕ) (fault : RangeFault) →
        first_range_fault values sorted least greatest ≡ Some fault → IsFirstFault values sorted least greatest fault }
{}
